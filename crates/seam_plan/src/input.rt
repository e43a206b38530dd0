//! What inputs bring to a join without seams.
ghost use Rattle.std.specs.Prelude.{◌≡◌, ◌≤◌, length, drop};

use exact_span::Played;
use slot_plan::Need;

/// What each frame of an input needs, at least one; whether all bytes of the side information of
/// its first frame are 0; and its played positions, if its head has counts.
#[derive(Clone, Copy)]
pub struct Input<'a> {
    pub needs: &'a [Need],
    pub blank: bool,
    pub played: Option<Played>,
}

/// The needs of the frames after the first `count`.
pub(crate) fn needs_after(needs: &[Need], count: usize) -> &[Need]
    requires { count ≤ length needs.now }
    ensures { result.now ≡ drop count needs.now }
{
    &needs[count..]
}
