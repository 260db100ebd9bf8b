//! The slot store and the test of what is lent, at their limits. Each expectation was worked out by hand from the rules.
#![tactic(auto)]

#[cfg(test)]
mod hall;
#[cfg(test)]
mod rule_trials;
#[cfg(test)]
mod slot_trials;
