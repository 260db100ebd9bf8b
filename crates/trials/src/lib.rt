//! Examples of the layers below the bench, run by the gate. Each value was worked out by hand from the rules.
#![tactic(auto)]

#[cfg(test)]
mod geometry_trials;
#[cfg(test)]
mod host_trials;
