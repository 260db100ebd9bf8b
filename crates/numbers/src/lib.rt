//! Laws of single-precision numbers, and the few operations on them that everything above is built from.
#![tactic(auto)]

pub mod laws;

ghost use Rattle.std.specs.Prelude.{◌≡◌, [], MatchOption};
ghost use Rattle.std.specs.Float.{binary32};
ghost use Rattle.std.specs.List.{AllByRecursion};
ghost use Rattle.numbers.specs.Picks.{lesser_of, greater_of};
ghost use Rattle.numbers.specs.Least.{least, Least};
ghost use Rattle.numbers.specs.Along.{along, reach, Fraction, OnTheWay};
ghost use Rattle.numbers.specs.Reals.{Number, Within, ranged};

/// The size up to which a number that is handed in or listed goes.
pub const RANGE: f32 = 1_000_000.0;

/// Whether `x` is a number of at most `limit` in size. A NaN is not.
pub fn in_range(x: f32, limit: f32) -> bool
    ensures { result ≡ ranged limit x }
{
    -limit <= x && x <= limit
}

/// The place at the fraction `f` of the way from `s` to `e`: a difference, a product and a sum, each rounded once.
pub fn lerp(s: f32, e: f32, f: f32) -> f32
    ensures value { result ≡ along binary32 s e f }
    ensures law { Within reach s → Within reach e → Fraction f → OnTheWay s e f result }
{
    s + (e - s) * f
}

/// The smaller of two numbers: the first, unless the second is below it.
// not `f32::min`, which leaves open which of two zeros comes and passes over a NaN
pub fn lesser(first: f32, second: f32) -> f32
    ensures { result ≡ lesser_of first second }
{
    if second < first { second } else { first }
}

/// The greater of two numbers: the first, unless the second is above it.
// not `f32::max`, for the same reasons
pub fn greater(first: f32, second: f32) -> f32
    ensures { result ≡ greater_of first second }
{
    if first < second { second } else { first }
}

/// The first of the smallest elements of `xs`.
pub fn smallest(xs: &[f32]) -> Option<f32>
    ensures value { result ≡ least xs.now }
    ensures law { AllByRecursion Number xs.now → MatchOption result (xs.now ≡ []) (Least xs.now) }
{
    first_smallest(xs)
}

/// `smallest`, without its law: one clause alone is found without an answer.
fn first_smallest(xs: &[f32]) -> Option<f32>
    ensures { result ≡ least xs.now }
{
    let (first, rest) = xs.split_first()?;
    Some(rest.iter().fold(*first, |best, x| lesser(best, *x)))
}
