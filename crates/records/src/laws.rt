//! Laws of the records, each on the contract of a function.
ghost use Rattle.records.specs.ListLaws.{ListLaws};
ghost use Rattle.records.specs.Equality.{EqualityDecides};
ghost use Rattle.records.specs.Faults.{FaultsNumbered};

/// Attaching appends, detaching takes out one and keeps the order of the others, each undoes the other, and a refusal alters nothing.
pub fn lists_keep_their_order()
    ensures { ListLaws }
{}

/// The tests of equality are passed exactly by two that are one.
pub fn equality_is_exact()
    ensures { EqualityDecides }
{}

/// Each refusal has a number of its own from 1 to 9, and with its place that tells it.
pub fn faults_have_their_own_numbers()
    ensures { FaultsNumbered }
{}
