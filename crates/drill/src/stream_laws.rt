//! Laws of streams made from a number. Each function does nothing: a proof that needs its law calls it.
ghost use Rattle.drill.specs.StreamLaws.{StreamsHold, StreamsAreSurveyed, StreamsAreLong, FirstBeginsInItsArea, StreamsNeedNoLeadIn};

/// Whatever the number, its stream of one frame or more is well-formed. Its frames have the fields and the
/// main data that were drawn, and none is lost.
pub fn streams_hold()
    ensures { StreamsHold }
{}

/// Whatever the number, a survey of its stream of 1 to 20,000 frames that allows that many finds no
/// fault. It finds the frames, in order, from the first byte on, the first with main_data_begin 0,
/// and no head, no block and no junk.
pub fn streams_are_surveyed()
    ensures surveyed { StreamsAreSurveyed }
    ensures first { FirstBeginsInItsArea }
{}

/// The stream has 417 bytes for each frame.
pub fn streams_are_long()
    ensures { StreamsAreLong }
{}

/// No plan of the frames of the stream has a lead-in, if each may have its own slot: they have a
/// layout without one. A file into which they are packed has none either.
pub fn streams_need_no_lead_in()
    ensures { StreamsNeedNoLeadIn }
{}
