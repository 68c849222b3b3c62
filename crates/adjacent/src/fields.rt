//! A double as IEEE 754 lays out its 64 bits: a sign, an exponent of 11 bits, and 52 digits.
ghost use Rattle.std.specs.Prelude.{◌≡◌, ◌<◌, ◌-◌, ◌^◌};
ghost use Rattle.adjacent.specs.Fields.{Laid, double_of, plus};

use rank_arithmetic::{FIELD, SIGN};
use std::num::f64_to_bits_with_nan;

/// The exponent of infinities and NaNs, all ones.
pub(crate) const INFINITE: u64 = 2047;

/// Digits all ones.
pub(crate) const ONES: u64 = FIELD - 1;

/// Sign, exponent and digits.
#[derive(Clone, Copy)]
pub(crate) struct Fields {
    pub negative: bool,
    pub exponent: u64,
    pub digits: u64,
}

/// Those of `x`.
pub(crate) fn fields_of(x: f64) -> Fields
    ensures { Laid result.exponent result.digits × (double_of result ≡ x) }
{
    let b = f64_to_bits_with_nan(x);
    Fields {
        negative: b >= SIGN,
        exponent: b / FIELD % 2048,
        digits: b % FIELD,
    }
}

/// The double of sign + with this exponent and these digits, none of the infinities and NaNs.
pub(crate) fn plus(exponent: u64, digits: u64) -> f64
    requires { (exponent < 2 ^ 11 - 1) × (digits < 2 ^ 52) }
    ensures { result ≡ plus exponent digits }
{
    f64::from_bits(exponent * FIELD + digits)
}
