//! Sums and products rounded outward. A product comes with both its ends.
ghost use Rattle.std.specs.Prelude.{◌≡◌, true, false, cond, ◌<◌, ◌≤◌, T, ◌*ℤ◌, ◌+ℤ◌};
ghost use Rattle.std.specs.Float.Ieee.Scale.{finite};
ghost use Rattle.exact.specs.Value.{exact, signed};
ghost use Rattle.rank_arithmetic.specs.Rank.{at_rank, double, infinity};
ghost use Rattle.doubles.specs.Directed.{product_down, product_up, round_down, round_up, sum_down, sum_up, with_zero};

use double_bits::{SIGN, is_finite, negative, positive};
use rank_arithmetic::{Bounds, rank_difference, rank_product, rank_sum};

/// A finite double by its sign and its rank.
#[derive(Clone, Copy)]
struct Parts {
    below: bool,
    rank: u64,
}

impl Parts {
    /// Those of `a`.
    fn of(a: f64) -> Parts
        requires { T (finite a) }
        ensures { (result.rank < infinity) × (exact a ≡ signed result.below (at_rank 52 result.rank)) }
    {
        let bits = a.to_bits();
        Parts {
            below: bits >= SIGN,
            rank: bits % SIGN,
        }
    }
}

/// The negative double of rank `r`, where a zero is +0.
fn minus(r: u64) -> f64
    requires { r ≤ infinity }
    ensures { result ≡ with_zero false (double true r) }
{
    if r == 0 { positive(0) } else { negative(r) }
}

/// The bounds of the ranks `r`, or, in the mirror, their negatives the other way round.
fn spread(below: bool, r: Bounds<u64>) -> Bounds<f64>
    requires { (r.down ≤ infinity) × (r.up ≤ infinity) }
    ensures { (result.down ≡ cond below (with_zero false (double true r.up)) (double false r.down)) × (result.up ≡ cond below (with_zero false (double true r.down)) (double false r.up)) }
{
    if below {
        Bounds {
            down: minus(r.up),
            up: minus(r.down),
        }
    } else {
        Bounds {
            down: positive(r.down),
            up: positive(r.up),
        }
    }
}

/// +0 on both sides.
fn zero() -> Bounds<f64>
    ensures { (result.down ≡ double false 0) × (result.up ≡ double false 0) }
{
    Bounds { down: 0.0, up: 0.0 }
}

/// The bounds of the sum of two finite doubles by their parts, the second no larger than the first.
fn signed_sum(first: Parts, second: Parts) -> Bounds<f64>
    requires { (second.rank ≤ first.rank) × (first.rank < infinity) }
    ensures { let z = signed first.below (at_rank 52 first.rank) +ℤ signed second.below (at_rank 52 second.rank) in (result.down ≡ round_down 0 z) × (result.up ≡ round_up 0 z) }
{
    let r = first.rank;
    let t = second.rank;
    if t == 0 {
        spread(first.below, Bounds { down: r, up: r })
    } else if first.below == second.below {
        spread(first.below, rank_sum(r, t))
    } else if t < r {
        spread(first.below, rank_difference(r, t))
    } else {
        zero()
    }
}

/// The bounds of `a + b`.
fn sum_bounds(a: f64, b: f64) -> Bounds<f64>
    requires { T (finite a) × T (finite b) }
    ensures { (result.down ≡ round_down 0 (exact a +ℤ exact b)) × (result.up ≡ round_up 0 (exact a +ℤ exact b)) }
{
    let x = Parts::of(a);
    let y = Parts::of(b);
    if y.rank <= x.rank {
        signed_sum(x, y)
    } else {
        signed_sum(y, x)
    }
}

/// The upper bound (`UP`), or the lower.
fn end<const UP: bool>(bounds: Bounds<f64>) -> f64
    ensures { result ≡ cond UP bounds.up bounds.down }
{
    if UP { bounds.up } else { bounds.down }
}

/// The least double not below `a + b` (`UP`), or the greatest not above it; an infinite running sum `a` stays.
pub fn rounded_sum<const UP: bool>(a: f64, b: f64) -> f64
    ensures { result ≡ cond UP (sum_up a b) (sum_down a b) }
{
    if !is_finite(a) {
        return a;
    }
    if !is_finite(b) {
        return b;
    }
    end::<UP>(sum_bounds(a, b))
}

/// The bounds of `a b` for finite factors.
fn finite_product(a: f64, b: f64) -> Bounds<f64>
    requires { T (finite a) × T (finite b) }
    ensures { (result.down ≡ round_down 1074 (exact a *ℤ exact b)) × (result.up ≡ round_up 1074 (exact a *ℤ exact b)) }
{
    let x = Parts::of(a);
    let y = Parts::of(b);
    if x.rank == 0 {
        return zero();
    }
    if y.rank == 0 {
        return zero();
    }
    spread(x.below != y.below, rank_product(x.rank, y.rank))
}

/// The greatest double not above `a b` and the least not below it; where a factor is not finite both are IEEE 754's product.
pub fn product_bounds(a: f64, b: f64) -> Bounds<f64>
    ensures { (result.down ≡ product_down a b) × (result.up ≡ product_up a b) }
{
    if is_finite(a) && is_finite(b) {
        return finite_product(a, b);
    }
    let p = a * b;
    Bounds { down: p, up: p }
}
