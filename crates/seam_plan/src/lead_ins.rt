//! The lead-in at the front of an input.
ghost use Rattle.std.specs.Prelude.{◌≡◌, ◌<◌, List, length, drop};
ghost use Rattle.frame_header.specs.Tables.{window_of};
ghost use Rattle.frame_header.specs.Fields.{ClassFields};
ghost use Rattle.slot_plan.specs.Parts.{AreNeedsOfClass};
ghost use Rattle.slot_plan.specs.FreeBytes.{FitBehindWindow};
ghost use Rattle.seam_plan.specs.Frames.{SpliceFrame, Brought, needs_of};
ghost use Rattle.seam_plan.specs.Joins.{has_lead_in, leads_others, is_same_header, fits_behind};
ghost use Rattle.seam_plan.specs.Seams.{front_left_out_count};
ghost use Rattle.seam_plan.specs.Decisions.{IsBroughtInput};

use crate::input::{Input, needs_after};
use frame_header::Header;
use slot_plan::{Need, lead_in, wants};

/// Whether two headers have the same 32 bits.
pub fn is_same_header(first: &Header, second: &Header) -> bool
    ensures { result ≡ is_same_header first.now second.now }
{
    first.bytes() == second.bytes()
}

/// Whether there are frames after the first, and the first has the header of their lead-in.
fn leads_others(needs: &[Need]) -> bool
    requires { FitBehindWindow needs.now }
    ensures { (class : ClassFields) → AreNeedsOfClass class needs.now
        → result ≡ leads_others (window_of class.version) needs.now }
{
    if needs.len() < 2 {
        return false;
    }
    let header = lead_in(needs_after(needs, 1));
    is_same_header(&needs[0].header, &header)
}

/// Whether the frames fit after no bytes.
pub(crate) fn fit_alone(needs: &[Need]) -> bool
    requires { FitBehindWindow needs.now }
    ensures { (class : ClassFields) → AreNeedsOfClass class needs.now
        → result ≡ fits_behind (window_of class.version) 0 needs.now }
{
    wants(needs) == 0
}

/// Whether the input begins with a lead-in: all bytes of the side information of its first frame
/// are 0, and this frame has the header of the lead-in of the frames after it.
pub(crate) fn has_lead_in(input: &Input<'_>) -> bool
    requires { FitBehindWindow input.now.needs.now }
    ensures { (class : ClassFields) (brought : Brought) → AreNeedsOfClass class input.now.needs.now
        → IsBroughtInput input.now brought
        → result ≡ has_lead_in (window_of class.version) brought }
{
    input.blank && leads_others(input.needs)
}

/// How many frames are left out at the front of the whole splice, 1 or 0: the lead-in of the first
/// input, if it has one and the other frames want one. The splice has at least one frame, and the
/// frames after its first fit after a whole window.
pub fn front_left_out(first: &Input<'_>, splice: &[Need]) -> u32
    requires input { FitBehindWindow first.now.needs.now }
    requires some { 0 < length splice.now }
    requires splice { FitBehindWindow (drop 1 splice.now) }
    ensures { (class : ClassFields) (brought : Brought) (frames : List SpliceFrame)
        → AreNeedsOfClass class first.now.needs.now → AreNeedsOfClass class splice.now
        → IsBroughtInput first.now brought → splice.now ≡ needs_of frames
        → result ≡ front_left_out_count class brought frames }
{
    if !has_lead_in(first) {
        return 0;
    }
    if fit_alone(needs_after(splice, 1)) {
        0
    } else {
        1
    }
}
