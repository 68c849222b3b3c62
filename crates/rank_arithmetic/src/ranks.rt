//! Magnitudes rounded outward to ranks. A rank is the exponent times 2^52 and the significand, so a significand that is one
//! more carries into the exponent by itself, and subnormals and overflow need no case.
ghost use Rattle.std.specs.Prelude.{◌≡◌, cond, ◌+◌, ◌-◌, ◌*◌, ◌/◌, ◌^◌, ◌<◌, ◌≤◌, min};
ghost use Rattle.rank_arithmetic.specs.Rank.{at_rank, infinity, largest, rank_down, rank_up};

use crate::digits::{width, without};

/// What one more in the exponent adds to a rank: 2^52.
pub const FIELD: u64 = 0x10_0000_0000_0000;

/// The bit pattern of -0, in which only the sign is set: what it adds to a rank.
pub const SIGN: u64 = f64::to_bits(-0.0);

/// The rank of the largest finite double.
const LARGEST: u64 = f64::to_bits(f64::MAX);

/// The rank of the infinity.
pub const INFINITY: u64 = f64::to_bits(f64::INFINITY);

/// A lower and an upper bound.
#[derive(Clone, Copy)]
pub struct Bounds<T> {
    pub down: T,
    pub up: T,
}

/// The rank `r` and, where `inexact`, the next one up, or those of the largest double and of the infinity where `r` is past
/// the finite ones.
fn capped(r: u64, inexact: bool) -> Bounds<u64>
    ensures { (result.down ≡ min r largest) × (result.up ≡ min (r + cond inexact 1 0) infinity) }
{
    Bounds {
        down: r.min(LARGEST),
        up: r.saturating_add(u64::from(inexact)).min(INFINITY),
    }
}

/// How many binary digits 0 stand after the significand at rank `r`.
fn exponent(r: u64) -> u64
    ensures { result ≡ r / 2 ^ 52 - 1 }
{
    (r / FIELD).saturating_sub(1)
}

/// The bounds of `n` with `s` binary digits 0 after it, in units of 2^-(1074 + l): its width gives the exponent `k` of both
/// ranks, and so how many digits are cut off.
fn wide_ranks(n: u128, s: u64, l: u64) -> Bounds<u64>
    requires { (0 < n) × (n < 2 ^ 120) × (s ≤ 2046 + l + l) × (l ≤ 1074) }
    ensures { (result.down ≡ min (rank_down 52 l (n * 2 ^ s)) largest) × (result.up ≡ min (rank_up 52 l (n * 2 ^ s)) infinity) }
{
    let e = width(n) + s;
    let k = e.saturating_sub(l + 53);
    let t = l + k;
    let f = k * FIELD;
    if t < s {
        let whole = n as u64;
        capped(f + (whole << (s - t)), false)
    } else {
        let cut = without(n, t - s);
        capped(f + cut.whole, cut.inexact)
    }
}

/// The bounds of the product of two doubles above 0, by their ranks.
pub fn rank_product(r: u64, t: u64) -> Bounds<u64>
    requires { (0 < r) × (r < infinity) × (0 < t) × (t < infinity) }
    ensures { (result.down ≡ min (rank_down 52 1074 (at_rank 52 r * at_rank 52 t)) largest) × (result.up ≡ min (rank_up 52 1074 (at_rank 52 r * at_rank 52 t)) infinity) }
{
    let j = exponent(r);
    let k = exponent(t);
    let product = u128::from(r - j * FIELD) * u128::from(t - k * FIELD);
    wide_ranks(product, j + k, 1074)
}

// Kept: `rank_sum` and `rank_difference` as one function by a flag would choose the `requires`, the far neighbour and the operator by it; only the frame is common.

/// The bounds of the sum of two doubles above 0, by their ranks. A second one far below the first only moves the upper bound,
/// and a near one is added at its own exponent.
pub fn rank_sum(r: u64, t: u64) -> Bounds<u64>
    requires { (0 < t) × (t ≤ r) × (r < infinity) }
    ensures { (result.down ≡ min (rank_down 52 0 (at_rank 52 r + at_rank 52 t)) largest) × (result.up ≡ min (rank_up 52 0 (at_rank 52 r + at_rank 52 t)) infinity) }
{
    let j = exponent(r);
    let k = exponent(t);
    let d = j - k;
    if d > 55 {
        return capped(r, true);
    }
    let first = u128::from(r - j * FIELD) << d;
    let second = u128::from(t - k * FIELD);
    wide_ranks(first + second, k, 0)
}

/// The bounds of the difference of two doubles above 0, by their ranks: as for the sum, but a far one moves the lower bound.
pub fn rank_difference(r: u64, t: u64) -> Bounds<u64>
    requires { (0 < t) × (t < r) × (r < infinity) }
    ensures { (result.down ≡ min (rank_down 52 0 (at_rank 52 r - at_rank 52 t)) largest) × (result.up ≡ min (rank_up 52 0 (at_rank 52 r - at_rank 52 t)) infinity) }
{
    let j = exponent(r);
    let k = exponent(t);
    let d = j - k;
    if d > 55 {
        return capped(r - 1, true);
    }
    let first = u128::from(r - j * FIELD) << d;
    let second = u128::from(t - k * FIELD);
    wide_ranks(first - second, k, 0)
}
