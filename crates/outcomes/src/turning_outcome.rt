//! What a turning cast answers.
ghost use Rattle.std.specs.Prelude.{◌≡◌};
ghost use Rattle.outcomes.specs.Outcomes.{turning_number};
ghost use Rattle.outcomes.specs.Impacts.{quotient, turned_of, TurnsUnderCaps};

use crate::pair_kind::PairKind;
use crate::unsupported::Unsupported;

/// When a turning shape meets a target: at a time, never, or the host cannot tell.
pub type TurningOutcome = Result<Option<f32>, Unsupported>;

/// The number that stands for it outside: 0 to 2.
// functions, since neither `Result` nor `u8` is of this crate
pub fn turning_number(outcome: TurningOutcome) -> u8
    ensures { result ≡ turning_number outcome }
{
    match outcome {
        Ok(Some(_)) => 0,
        Ok(None) => 1,
        Err(Unsupported) => 2,
    }
}

/// The time as a fraction of `dt`; none where `dt` is 0.
pub fn turning_fraction(outcome: TurningOutcome, dt: f32) -> Option<f32>
    ensures { result ≡ quotient outcome dt }
{
    match outcome {
        // no guard: of a negated test of floats the proof did not close
        Ok(Some(time)) => { if dt == 0.0 { None } else { Some(time / dt) } }
        Ok(None) | Err(Unsupported) => None,
    }
}

/// What a pair of the given kind takes of it.
pub fn turning_impact(outcome: TurningOutcome, dt: f32, pair: PairKind, cap: f32) -> Option<f32>
    ensures { result ≡ turned_of pair outcome dt cap }
{
    let fraction = turning_fraction(outcome, dt)?;
    pair.taken(fraction, cap)
}

/// The cap law of turning casts: whatever a host answers, what is taken at a cap is what is taken at the cap 1, where that
/// lies below the cap.
pub fn turning_impacts_keep_the_cap_law()
    ensures { TurnsUnderCaps }
{}
