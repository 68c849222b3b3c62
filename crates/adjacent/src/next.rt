//! Next up and next down, with an arm for each case. In units of 2^-1074, of sign +:
//!
//! | case, the first that fits | magnitude | next up | next down |
//! |---|---|---|---|
//! | NaN | | NaN | NaN |
//! | infinity | | +infinity | MAX |
//! | zero, of either sign | 0 | 1 | -1 |
//! | smallest subnormal | 1 | 2 | +0 |
//! | largest subnormal | 2^52 - 1 | 2^52 | 2^52 - 2 |
//! | power of two | 2^j | 2^j + 2^(j - 52), or 2^j + 1 below 2^52 | 2^j - 2^(j - 53), or 2^j - 1 up to 2^52 |
//! | MAX | (2^53 - 1) 2^2045 | +infinity | (2^53 - 2) 2^2045 |
//! | the rest | m 2^k, m of 53 digits, or fewer where k is 0 | (m + 1) 2^k | (m - 1) 2^k |
//!
//! Of sign -, next up is minus what the table has for next down, and next down minus what it has for next up.
ghost use Rattle.std.specs.Prelude.{◌≡◌};
ghost use Rattle.doubles.specs.Neighbours.{next_down, next_up};
ghost use Rattle.adjacent.specs.Fields.{Laid, plus};

use crate::case_of::case_of;
use crate::fields::{ONES, fields_of, plus};
use doubles::Case;

const SMALLEST_SUBNORMAL: f64 = f64::from_bits(1);

const SMALLEST_NORMAL: f64 = f64::MIN_POSITIVE;

/// The column "next up" of the table, of sign +.
fn above(exponent: u64, digits: u64) -> f64
    requires { Laid exponent digits }
    ensures { result ≡ next_up (plus exponent digits) }
{
    match case_of(exponent, digits) {
        Case::Nan => f64::NAN,
        Case::Infinity => f64::INFINITY,
        Case::Zero => SMALLEST_SUBNORMAL,
        Case::SmallestSubnormal => plus(exponent, digits + 1),
        Case::LargestSubnormal => SMALLEST_NORMAL,
        Case::PowerOfTwo => plus(exponent, digits + 1),
        Case::Max => f64::INFINITY,
        Case::Rest => {
            if digits == ONES {
                plus(exponent + 1, 0)
            } else {
                plus(exponent, digits + 1)
            }
        }
    }
}

/// The column "next down".
fn below(exponent: u64, digits: u64) -> f64
    requires { Laid exponent digits }
    ensures { result ≡ next_down (plus exponent digits) }
{
    match case_of(exponent, digits) {
        Case::Nan => f64::NAN,
        Case::Infinity => f64::MAX,
        Case::Zero => -SMALLEST_SUBNORMAL,
        Case::SmallestSubnormal => 0.0,
        Case::LargestSubnormal => plus(exponent, digits - 1),
        Case::PowerOfTwo => {
            if digits == 0 {
                plus(exponent - 1, ONES)
            } else {
                plus(exponent, digits - 1)
            }
        }
        Case::Max => plus(exponent, digits - 1),
        Case::Rest => plus(exponent, digits - 1),
    }
}

/// The least double above `x`. A NaN and +infinity stay; past the largest double it is +infinity.
pub fn next_up(x: f64) -> f64
    ensures { result ≡ next_up x }
{
    let f = fields_of(x);
    if f.negative {
        -below(f.exponent, f.digits)
    } else {
        above(f.exponent, f.digits)
    }
}

/// The greatest double below `x`. A NaN and -infinity stay; past the least double it is -infinity.
pub fn next_down(x: f64) -> f64
    ensures { result ≡ next_down x }
{
    let f = fields_of(x);
    if f.negative {
        -above(f.exponent, f.digits)
    } else {
        below(f.exponent, f.digits)
    }
}
