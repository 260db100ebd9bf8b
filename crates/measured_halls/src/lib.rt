//! The measured halls, computed from the definitions of the end of a step and of the first impact.
#![tactic(auto)]

ghost use Rattle.measured_halls.specs.Halls.{Measured};

/// Each measured hall answers what was measured, over the list of the colliders at rest and over the full finder alike.
pub fn measured_halls_stand()
    ensures { Measured }
{}
