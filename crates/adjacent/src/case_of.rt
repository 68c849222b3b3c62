//! The case of a double.
ghost use Rattle.std.specs.Prelude.{◌≡◌, cond, eqb};
ghost use Rattle.std.specs.Int.{is_power_of_two};
ghost use Rattle.doubles.specs.Cases.{first_case};
ghost use Rattle.adjacent.specs.Fields.{Laid, inner, plus};

use crate::fields::{INFINITE, ONES};
use doubles::Case;

/// Whether exponent and digits lie between their ends, all zeros and all ones.
fn is_inner(exponent: u64, digits: u64) -> bool
    ensures { result ≡ inner exponent digits }
{
    (0 < exponent) & (exponent < INFINITE) & ((0 < digits) & (digits < ONES))
}

/// Whether one digit is set, the leading one of a normal number counted, which stands in no field.
fn is_power_of_two(exponent: u64, digits: u64) -> bool
    ensures { result ≡ cond (eqb exponent 0) (is_power_of_two digits) (eqb digits 0) }
{
    if exponent == 0 {
        digits.is_power_of_two()
    } else {
        digits == 0
    }
}

/// The first case that fits, which the sign has no part in.
pub(crate) fn case_of(exponent: u64, digits: u64) -> Case
    requires { Laid exponent digits }
    ensures { result ≡ first_case (plus exponent digits) }
{
    if is_inner(exponent, digits) {
        // told first for speed: no case before the rest is left
        return Case::Rest;
    }
    if (exponent == INFINITE) & (digits != 0) {
        Case::Nan
    } else if exponent == INFINITE {
        Case::Infinity
    } else if (exponent == 0) & (digits == 0) {
        Case::Zero
    } else if (exponent == 0) & (digits == 1) {
        Case::SmallestSubnormal
    } else if (exponent == 0) & (digits == ONES) {
        Case::LargestSubnormal
    } else if is_power_of_two(exponent, digits) {
        Case::PowerOfTwo
    } else if (exponent == INFINITE - 1) & (digits == ONES) {
        Case::Max
    } else {
        Case::Rest
    }
}
