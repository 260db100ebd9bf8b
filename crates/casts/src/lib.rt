//! One cast of a fast shape at a target, by the kinds of both: which pieces are swept, which cast each gets, and what the pair
//! takes of it.
#![tactic(auto)]

mod flight;
mod pieces;
mod refusal;
mod report;
mod single;

pub use flight::{Flight, check_flight};
pub use pieces::{TargetKind, cast_sub_shape, child_sweep, is_piece, is_swept, target_kind};
pub use refusal::CastRefusal;
pub use report::{Casts, Report};
pub use single::cast_flight;
