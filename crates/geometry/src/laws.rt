//! Laws of handles, groups and numbers of kinds, each on the contract of a function.
ghost use Rattle.std.specs.Prelude.{◌≡◌, Decides};
ghost use Rattle.geometry.specs.Handles.{same};
ghost use Rattle.geometry.specs.Groups.{GroupsAgree};
ghost use Rattle.geometry.specs.Kinds.{Numbered};

use crate::handle::Handle;

/// Groups agree either way round, and one way alone is enough only where both modes are Or.
pub fn groups_agree_either_way_round()
    ensures { GroupsAgree }
{}

/// Each kind and mode has a number of its own, which gives it back, and no other number gives one.
pub fn kinds_have_their_own_numbers()
    ensures { Numbered }
{}

/// The derived equality of handles: both name the same record, by equal slots and equal generations.
pub fn handles_are_equal_by_slot_and_generation(first: Handle, second: Handle) -> bool
    ensures value { result ≡ same first second }
    ensures decides { Decides result (first ≡ second) }
{
    first == second
}
