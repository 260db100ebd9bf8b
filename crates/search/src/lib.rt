//! The capped search for the least impact, over any marks in a total order: definitions and laws, which the sweep of a body rests on.
#![tactic(auto)]

ghost use Rattle.search.specs.Laws.{SearchLaws};

/// A search under a cap that each accepted answer tightens finds the least impact of all that it asks, in whatever order it asks.
pub fn a_capped_search_finds_the_least<M, Q>()
    ensures { SearchLaws M Q }
{}
