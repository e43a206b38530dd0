//! The law of stretches that leave one part. The function does nothing: a proof that needs the law calls it.
ghost use Rattle.remove_laws.specs.CutLaws.{RemoveToTheEndIsCut};

/// Where stretches leave one part, as those at the front and at the end do, and no frame points into the head, the part is what
/// `cut` leaves between the positions of its first frame and of its end: the same frames in the same slots, behind the same
/// lead-in or none, with the same main data. Where delay and padding aren't written either, `remove` makes the file that `cut`
/// makes.
pub fn remove_to_the_end_is_cut()
    ensures { RemoveToTheEndIsCut }
{}
