//! Examples of finders and filters, run.
#![tactic(auto)]

#[cfg(test)]
mod filters;
#[cfg(test)]
mod reports;
#[cfg(test)]
mod samples;
#[cfg(test)]
mod tables;
