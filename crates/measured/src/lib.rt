//! The measured casts, computed from the definitions of both hosts.
#![tactic(auto)]

ghost use Rattle.measured.specs.Halls.{Measured};

/// Each measured cast and each measured pair of groups answers what was measured.
pub fn measured_casts_stand()
    ensures { Measured }
{}
