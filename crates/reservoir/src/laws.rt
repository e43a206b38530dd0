//! Laws of the window. Each function does nothing: a proof that needs its law calls it.
ghost use Rattle.reservoir.specs.Laws.{AreasAreHeld, FramesAreHeld};

/// After areas are pushed in order, a window is over all of them, joined.
pub fn areas_are_held()
    ensures { AreasAreHeld }
{}

/// A window of 2,048 bytes holds the main data of every frame: its own area and its main_data_begin add up
/// to at most 1,939 bytes.
pub fn frames_are_held()
    ensures { FramesAreHeld }
{}
