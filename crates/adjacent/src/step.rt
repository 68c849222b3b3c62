//! A normal number or the one next to it, by the cases that a normal number can have, for the fast sums and products. The
//! compiler makes one addition of them, with no branch on the step, which may be as good as random.
ghost use Rattle.std.specs.Prelude.{◌≡◌, cond, eqb, T, ◌%◌, ◌<◌, ◌≤◌, ◌+◌, ◌-◌, ◌^◌};
ghost use Rattle.doubles.specs.Neighbours.{next_down, next_up};
ghost use Rattle.adjacent.specs.Fields.{Normal};

use crate::fields::ONES;
use rank_arithmetic::{FIELD, SIGN};

/// One digit more, which leaves the exponent: the digits are not all ones.
fn digit_more(b: u64) -> u64
    requires { (b % 2 ^ 52 < 2 ^ 52 - 1) × (b < 2 ^ 64 - 2 ^ 52) }
    ensures { result ≡ b + 1 }
{
    b + 1
}

/// The next exponent with digits 0: the digits are all ones.
fn next_exponent(b: u64) -> u64
    requires { (b % 2 ^ 52 ≡ 2 ^ 52 - 1) × (b < 2 ^ 64 - 2 ^ 52) }
    ensures { result ≡ b + 2 ^ 52 - (2 ^ 52 - 1) }
{
    b + FIELD - ONES
}

/// One digit less, which leaves the exponent: the digits are not 0.
fn digit_less(b: u64) -> u64
    requires { 0 < b % 2 ^ 52 }
    ensures { result ≡ b - 1 }
{
    b - 1
}

/// The exponent before with digits all ones: the digits are 0.
fn exponent_before(b: u64) -> u64
    requires { (b % 2 ^ 52 ≡ 0) × (2 ^ 52 ≤ b) }
    ensures { result ≡ b - 2 ^ 52 + (2 ^ 52 - 1) }
{
    b - FIELD + ONES
}

/// Where `step`, the bits of the neighbour further from 0.
fn further(b: u64, step: bool) -> u64
    requires { b < 2 ^ 64 - 2 ^ 52 }
    ensures { result ≡ cond step (cond (eqb (b % 2 ^ 52) (2 ^ 52 - 1)) (b + 2 ^ 52 - (2 ^ 52 - 1)) (b + 1)) b }
{
    if !step {
        b
    } else if b % FIELD == ONES {
        // of MAX the infinity, and of the rest below a power of two that one
        next_exponent(b)
    } else {
        // of a power of two and the rest
        digit_more(b)
    }
}

/// Where `step`, the bits of the one nearer to 0.
fn nearer(b: u64, step: bool) -> u64
    requires { T step → 2 ^ 52 ≤ b }
    ensures { result ≡ cond step (cond (eqb (b % 2 ^ 52) 0) (b - 2 ^ 52 + (2 ^ 52 - 1)) (b - 1)) b }
{
    if !step {
        b
    } else if b % FIELD == 0 {
        // of a power of two
        exponent_before(b)
    } else {
        // of MAX and the rest
        digit_less(b)
    }
}

/// Where `step`, the double next to `x` up (`UP`) or down, and otherwise `x`.
pub fn stepped<const UP: bool>(x: f64, step: bool) -> f64
    requires { Normal x step }
    ensures { result ≡ cond step (cond UP (next_up x) (next_down x)) x }
{
    let b = x.to_bits();
    let r = if UP == (b >= SIGN) {
        nearer(b, step)
    } else {
        further(b, step)
    };
    f64::from_bits(r)
}
