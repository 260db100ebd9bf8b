//! What casts and overlap tests answer, and what a solid or a pseudo pair takes of it.
#![tactic(auto)]

mod cast_outcome;
mod overlap;
mod pair_kind;
mod turning_outcome;
mod unsupported;

pub use cast_outcome::CastOutcome;
pub use overlap::{Overlap, is_yes, overlap_number};
pub use pair_kind::PairKind;
pub use turning_outcome::{
    TurningOutcome, turning_fraction, turning_impact, turning_impacts_keep_the_cap_law,
    turning_number,
};
pub use unsupported::Unsupported;
