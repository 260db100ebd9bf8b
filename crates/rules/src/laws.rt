//! Laws of the rules, each on the contract of a function.
ghost use Rattle.rules.specs.Laws.{ListsAreExact, EmptyStoresHold, OwnPosesAdmitted};

/// Where the rules hold, a body's list has exactly the live colliders that name the body, each once.
pub fn lists_are_exact()
    ensures { ListsAreExact }
{}

/// The rules hold of stores that were just opened, and every pose is admitted.
pub fn empty_stores_hold()
    ensures { EmptyStoresHold }
{}

/// Where the rules hold and every pose is admitted, so is the own pose of each live collider.
pub fn own_poses_are_admitted()
    ensures { OwnPosesAdmitted }
{}
