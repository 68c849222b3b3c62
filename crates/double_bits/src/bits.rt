//! What the bits of a double say at once: its sign is the highest bit, and the rest is its rank among the doubles of that
//! sign. `to_bits` and `from_bits` are defined only off a NaN, so a NaN is told first.
// Kept: std has `abs`, `is_finite`, `max`, `min`, `next_up` and `next_down`, but these are to be worked out from the 64 bits.
ghost use Rattle.std.specs.Prelude.{◌≡◌, not, cond, ◌+◌, ◌-◌, ◌^◌, T, leb};
ghost use Rattle.std.specs.Float.{binary64};
ghost use Rattle.std.specs.Float.Ieee.{to_bits, is_nan, lt};
ghost use Rattle.std.specs.Float.Ieee.Scale.{finite};
ghost use Rattle.doubles.specs.Compare.{absolute, larger, smaller};

use crate::{INFINITY, SIGN, positive};
use std::num::f64_to_bits_with_nan;

/// The absolute value of `x`.
pub fn abs(x: f64) -> f64
    ensures { result ≡ absolute x }
{
    if x.is_nan() {
        return x;
    }
    positive(x.to_bits() % SIGN)
}

/// Whether `x` is neither a NaN nor an infinity. Every NaN has one pattern here, of a rank above the infinity's.
pub fn is_finite(x: f64) -> bool
    ensures { result ≡ finite x }
{
    f64_to_bits_with_nan(x) % SIGN < INFINITY
}

/// The place of `x` in the order of all doubles, in which both zeros have one place.
fn order(x: f64) -> u64
    requires { T (not (is_nan x)) }
    ensures { result ≡ cond (leb (2 ^ 63) (to_bits binary64 x)) (2 ^ 63 - (to_bits binary64 x - 2 ^ 63)) (2 ^ 63 + to_bits binary64 x) }
{
    let b = x.to_bits();
    if b < SIGN {
        SIGN + b
    } else {
        SIGN - (b - SIGN)
    }
}

/// Whether `a` is below `b`, and neither is a NaN.
fn less(a: f64, b: f64) -> bool
    ensures { result ≡ lt a b }
{
    if a.is_nan() || b.is_nan() {
        false
    } else {
        order(a) < order(b)
    }
}

// Kept: `max` and `min` have a line each over one `less`; as one function by a const parameter both lines would stand in it, and no caller would say the Rust's name.

/// The larger of `a` and `b`: with one NaN the other, of two equal ones the first.
#[tactic(auto, unfolding(doubles::specs::Compare::larger))]
pub fn max(a: f64, b: f64) -> f64
    ensures { result ≡ larger a b }
{
    if a.is_nan() || less(a, b) { b } else { a }
}

/// The smaller of `a` and `b`: with one NaN the other, of two equal ones the first.
#[tactic(auto, unfolding(doubles::specs::Compare::smaller))]
pub fn min(a: f64, b: f64) -> f64
    ensures { result ≡ smaller a b }
{
    if a.is_nan() || less(b, a) { b } else { a }
}
