//! What clamping does to the bodies, in the words of the rules.
#![tactic(auto)]

ghost use Rattle.clamp_laws.specs.ClampLaws.{ClampsAreExact, ClampsKeepTheRules};

/// Exactly the bodies with a fraction below 1 are clamped, to the pose at their fraction, and nothing else of any record changes.
pub fn exactly_the_bodies_below_one_are_clamped()
    ensures { ClampsAreExact }
{}

/// Clamped poses stay in range and admitted.
pub fn clamped_poses_stay_in_range_and_admitted()
    ensures { ClampsKeepTheRules }
{}
