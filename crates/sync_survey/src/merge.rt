//! Two lists in order of offset as one.
ghost use Rattle.std.specs.Prelude.{◌≡◌, ◌≤◌, ℕ, true, false, IfSome, IfNone};
ghost use Rattle.sync_survey.specs.Order.{IsFirstAfter, IsFirstUntil};
ghost use Rattle.sync_survey.specs.Merge.{firsts_left, seconds_left, HasNoSecondNext, Meets, PassesFirst, PassesSecond};

/// What has an offset in a file.
pub trait HasOffset {
    ghost offset_of: { Self → ℕ };

    /// Its offset in bytes.
    fn offset_in_file(&self) -> u64
        ensures { result ≡ offset_of self.now };
}

/// An entry of one of two lists.
#[derive(Clone, Copy, Debug, PartialEq, Eq)]
pub enum Entry<A, B> {
    First(A),
    Second(B),
}

/// The entries of two lists, each in order of offset, that a walk over both hasn't met yet. Of
/// entries at the same offset, those of the first list come first.
#[derive(Drop)]
pub struct Merge<'a, A, B> {
    firsts: &'a [A],
    next_first: usize,
    seconds: &'a [B],
    next_second: usize,
}

impl<'a, A: HasOffset + Copy, B: HasOffset + Copy> Merge<'a, A, B> {
    /// All entries of these lists.
    pub fn new(firsts: &'a [A], seconds: &'a [B]) -> Merge<'a, A, B>
        ensures firsts { firsts_left result ≡ firsts.now }
        ensures seconds { seconds_left result ≡ seconds.now }
        ensures number { result.next_second ≡ 0 }
    {
        Merge {
            firsts,
            next_first: 0,
            seconds,
            next_second: 0,
        }
    }

    /// How many entries of the second list were met.
    #[inline]
    pub fn seconds_met(&self) -> usize
        ensures { result ≡ self.now.next_second }
    {
        self.next_second
    }

    /// Whether an entry of the first list that is left is at or before this offset.
    #[inline]
    fn has_first_until(&self, offset: u64) -> bool
        ensures after { result ≡ false → IsFirstAfter A.offset_of offset (firsts_left self.now) }
        ensures until { result ≡ true → IsFirstUntil A.offset_of offset (firsts_left self.now) }
    {
        match self.firsts.get(self.next_first) {
            Some(first) => first.offset_in_file() <= offset,
            None => false,
        }
    }

    /// The next entry of the first list, if it is at or before this offset, whatever is left of the
    /// second list.
    pub fn next_first_until(&mut self, offset: u64) -> Option<&'a A>
        ensures met { IfSome result (λ a. PassesFirst a.now self.old self.new) }
        ensures until { IfSome result (λ a. A.offset_of a.now ≤ offset) }
        ensures none { IfNone result (IsFirstAfter A.offset_of offset (firsts_left self.old)) }
        ensures stays { IfNone result (self.new ≡ self.old) }
    {
        let first = self.firsts.get(self.next_first)?;
        if offset < first.offset_in_file() {
            return None;
        }
        self.next_first += 1;
        Some(first)
    }

    /// The next entry, if it is one of the second list.
    #[inline]
    pub fn next_second(&mut self) -> Option<&'a B>
        ensures met { IfSome result (λ b. PassesSecond b.now self.old self.new) }
        ensures order { IfSome result (λ b. IsFirstAfter A.offset_of (B.offset_of b.now)
            (firsts_left self.old)) }
        ensures none { IfNone result (HasNoSecondNext A.offset_of B.offset_of self.old) }
        ensures stays { IfNone result (self.new ≡ self.old) }
    {
        let second = self.seconds.get(self.next_second)?;
        if self.has_first_until(second.offset_in_file()) {
            return None;
        }
        self.next_second += 1;
        Some(second)
    }

    /// The next entry, in order of offset; `None` once all were met.
    pub fn next(&mut self) -> Option<Entry<A, B>>
        ensures { Meets A.offset_of B.offset_of self.old result self.new }
    {
        let Some(second) = self.seconds.get(self.next_second) else {
            let first = self.firsts.get(self.next_first)?;
            self.next_first += 1;
            return Some(Entry::First(*first));
        };
        if let Some(first) = self.next_first_until(second.offset_in_file()) {
            return Some(Entry::First(*first));
        }
        self.next_second += 1;
        Some(Entry::Second(*second))
    }
}
