//! What the sweep of a body finds, in the words of the rules.
#![tactic(auto)]

ghost use Rattle.sweep_laws.specs.SweepLaws.{FractionIsLeast, ExactlyTheAdmitted, HitsAreTheCrossed};

/// The fraction of a swept body is the least solid impact of its admitted solid pairs, or 1 where there is none, whatever the order in
/// which the finder reports.
pub fn fraction_is_the_least_solid_impact()
    ensures { FractionIsLeast }
{}

/// The pairs that a sweep casts are exactly the admitted ones.
pub fn exactly_the_admitted_pairs_are_cast()
    ensures { ExactlyTheAdmitted }
{}

/// The hits that lie before the body's fraction are those of the admitted pseudo pairs whose pseudo impact does.
pub fn hits_are_the_pseudo_impacts()
    ensures { HitsAreTheCrossed }
{}
