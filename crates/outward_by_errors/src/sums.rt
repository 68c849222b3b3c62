//! Sums rounded outward.
ghost use Rattle.std.specs.Prelude.{◌≡◌, cond};
ghost use Rattle.doubles.specs.Directed.{sum_down, sum_up};
ghost use Rattle.cdouble.specs.Compensated.{◌⊕◌};
ghost use Rattle.cdouble.specs.Exactness.{SumRange};
ghost use Rattle.outward_by_errors.specs.Far.{Added, NotMinusZero};

use crate::ranges::within;
use crate::shifted::shifted;
use crate::stepped::outward;
use cdouble::CDouble;

/// `a + b` rounded up (`UP`) or down, in the range of `two_sum`. A sum that is not exact is a normal number.
fn near_sum<const UP: bool>(a: f64, b: f64) -> f64
    requires { SumRange a b × NotMinusZero (a ⊕ b) }
    ensures { result ≡ cond UP (sum_up a b) (sum_down a b) }
{
    outward::<UP>(CDouble::two_sum(a, b))
}

/// `a + b` rounded up (`UP`) or down, `a` being a far product, rounded.
pub(crate) fn far_sum<const UP: bool>(a: f64, b: f64) -> f64
    requires { Added a b }
    ensures { result ≡ cond UP (sum_up a b) (sum_down a b) }
{
    shifted::<UP>(CDouble::two_sum(a, b))
}

/// The least double not below `a + b` (`UP`), or the greatest not above it; an infinite running sum `a` stays.
pub fn rounded_sum<const UP: bool>(a: f64, b: f64) -> f64
    ensures { result ≡ cond UP (sum_up a b) (sum_down a b) }
{
    if within(a, CDouble::MOST_ADDEND) & within(b, CDouble::MOST_ADDEND) & (a + b != 0.0) {
        near_sum::<UP>(a, b)
    } else {
        outward_by_ranks::rounded_sum::<UP>(a, b)
    }
}
