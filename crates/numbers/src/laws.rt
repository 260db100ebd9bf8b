//! The laws of single precision, each on the contract of a function, so that the crate is not proved without it.
ghost use Rattle.numbers.specs.Along.{Interpolation, Overshoots};
ghost use Rattle.numbers.specs.Laws.{Ordered, LeastOf, Ranged, Rounds, Divides};

/// The numbers, infinities included, stand in a total order, and `==` tells exactly the two zeros together.
pub fn order_is_total()
    ensures { Ordered }
{}

/// The least of a list stands in it, is below all of it, and does not turn on the list's order.
pub fn least_is_attained_and_lowest()
    ensures { LeastOf }
{}

/// The test of a range tells exactly the finite numbers within the limit.
pub fn range_test_decides_the_range()
    ensures { Ranged }
{}

/// Rounded sums, differences and products keep the order of what they are made of.
pub fn rounding_keeps_the_order()
    ensures { Rounds }
{}

/// A place on the way lies between the ends, is finite, and moves one way as the fraction grows.
pub fn interpolation_stays_between_the_ends()
    ensures { Interpolation }
{}

/// At the fraction 1 the place may lie past the end, so the law above ends below 1.
pub fn interpolation_may_pass_the_end_at_one()
    ensures { Overshoots }
{}

/// A quotient has the sign of its parts, keeps the order of its numerators, and stays below 1 where the numerator is below the divisor.
pub fn quotients_keep_sign_and_order()
    ensures { Divides }
{}
