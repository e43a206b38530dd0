//! What is in a file, in order of offset.
ghost use Rattle.std.specs.Prelude.{◌≡◌, [], ◌∷◌, option_to_list, IfSome, IfNone, MatchOption};
ghost use Rattle.sync_survey.specs.Faults.{survey_view};
ghost use Rattle.sync_survey.specs.Survey.{IsSurveyLaidOut};
ghost use Rattle.list_edits.specs.Things.{offset_of, things_of, ordered_things, junk_of, head_thing, leading_things, things_left, IsLeadingOffset};
ghost use Rattle.list_edits.specs.declared.things.Thing.TheVariants.{Frame};

use frame_header::Header;
use sync_survey::{Entry, Merge, Piece, Row, Survey};

/// A thing in a file. Offsets and lengths are in bytes.
#[derive(Clone, Copy, Debug, PartialEq, Eq)]
pub(crate) enum Thing {
    /// A tag.
    Block(Piece),
    /// The junk before the first frame: its offset and its length.
    Junk(u64, u64),
    /// The head: its offset and its header.
    FirstHead(u64, Header),
    /// A frame: its number, counted from 0, and its row.
    Frame(u64, Row),
}

impl Thing {
    fn offset(&self) -> u64
        ensures { result ≡ offset_of self.now }
    {
        match self {
            Thing::Block(piece) => piece.offset,
            Thing::Junk(at, _) | Thing::FirstHead(at, _) => *at,
            Thing::Frame(_, row) => u64::from(row.offset()),
        }
    }
}

/// The things of a surveyed file that a walk hasn't met yet.
#[derive(Drop)]
pub(crate) struct Things<'a> {
    junk: Option<Thing>,
    head: Option<Thing>,
    others: Merge<'a, Piece, Row>,
}

fn junk_of(survey: &Survey) -> Option<Thing>
    ensures { option_to_list result ≡ junk_of (survey_view survey.now) }
{
    let (at, length) = survey.junk();
    if length == 0 {
        return None;
    }
    Some(Thing::Junk(at, length))
}

fn head_of(survey: &Survey) -> Option<Thing>
    ensures { option_to_list result
        ≡ head_thing (survey_view survey.now).first (survey_view survey.now).head }
{
    let head = survey.head()?;
    Some(Thing::FirstHead(survey.first(), head.header))
}

impl<'a> Things<'a> {
    /// All things of the file.
    pub(crate) fn of(survey: &'a Survey) -> Things<'a>
        requires { IsSurveyLaidOut (survey_view survey.now) }
        ensures { things_left result ≡ ordered_things (things_of (survey_view survey.now)) }
    {
        Things {
            junk: junk_of(survey),
            head: head_of(survey),
            others: Merge::new(survey.blocks(), survey.frames()),
        }
    }

    /// The next thing, if it is a frame: its number, and its row. None if it is another, or all were met.
    #[inline]
    pub(crate) fn next_frame(&mut self) -> Option<(u64, &'a Row)>
        ensures met { IfSome result
            (λ f. things_left self.old ≡ Frame f.0 f.1.now ∷ things_left self.new) }
        ensures stays { IfNone result (self.new ≡ self.old) }
    {
        if self.junk.is_some() {
            return None;
        }
        if self.head.is_some() {
            return None;
        }
        let number = self.others.seconds_met() as u64;
        let row = self.others.next_second()?;
        Some((number, row))
    }

    /// The next thing, in order of offset; none once all were met.
    pub(crate) fn next(&mut self) -> Option<Thing>
        ensures { MatchOption result (things_left self.old ≡ [])
            (λ t. things_left self.old ≡ t ∷ things_left self.new) }
    {
        let Some(offset) = self.leading_offset() else {
            return self.next_other();
        };
        match self.others.next_first_until(offset) {
            Some(piece) => Some(Thing::Block(*piece)),
            None => self.next_leading(),
        }
    }

    /// The offset of the junk or, if it was met, of the head, if one of them is left.
    fn leading_offset(&self) -> Option<u64>
        ensures { IsLeadingOffset result (leading_things self.now) }
    {
        if let Some(junk) = &self.junk {
            return Some(junk.offset());
        }
        let head = self.head.as_ref()?;
        Some(head.offset())
    }

    /// The junk or, if it was met, the head, if one of them is left.
    fn next_leading(&mut self) -> Option<Thing>
        ensures met { MatchOption result (leading_things self.old ≡ [])
            (λ t. leading_things self.old ≡ t ∷ leading_things self.new) }
        ensures same { self.new.others ≡ self.old.others }
    {
        if self.junk.is_some() {
            return self.junk.take();
        }
        self.head.take()
    }

    /// The next thing that is neither the junk nor the head.
    fn next_other(&mut self) -> Option<Thing>
        requires { leading_things self.old ≡ [] }
        ensures { MatchOption result (things_left self.old ≡ [])
            (λ t. things_left self.old ≡ t ∷ things_left self.new) }
    {
        let number = self.others.seconds_met() as u64;
        match self.others.next()? {
            Entry::First(piece) => Some(Thing::Block(piece)),
            Entry::Second(row) => Some(Thing::Frame(number, row)),
        }
    }
}
