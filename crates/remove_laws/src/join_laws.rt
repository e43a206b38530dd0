//! Laws of stretches whose removal is a join without seams. Each function does nothing: a proof that needs its law calls it.
ghost use Rattle.remove_laws.specs.JoinLaws.{PartsJoinAsRemoved, RemoveIsJoin};

/// If no frame points into the head, the files that `cut` makes of the parts that stay, joined without seams in their order, have
/// the frames and lead-ins that `remove` lays of these parts: each with the same bytes in the same slot, so that all bytes
/// between the Info frame and the end of the last frame are the same. None of the files may begin with a frame that looks like a
/// lead-in but isn't one.
pub fn parts_join_as_removed()
    ensures { PartsJoinAsRemoved }
{}

/// To remove stretches is to split the file where they begin and end, and to join the pieces in none of them without seams. If no
/// frame points into the head, and none of these pieces begins with a frame that looks like a lead-in but isn't one, the join has
/// the frames and lead-ins that `remove` lays: each with the same bytes in the same slot, so that all bytes between the Info
/// frame and the end of the last frame are the same.
pub fn remove_is_join()
    ensures { RemoveIsJoin }
{}
