//! Products rounded outward, with both their ends.
ghost use Rattle.std.specs.Prelude.{◌≡◌};
ghost use Rattle.doubles.specs.Directed.{product_down, product_up};
ghost use Rattle.cdouble.specs.Compensated.{split, two_product};
ghost use Rattle.cdouble.specs.Exactness.{AtMost};
ghost use Rattle.outward_by_errors.specs.Far.{Far};

use crate::ranges::{far, within};
use crate::shifted::shifted;
use cdouble::CDouble;
use rank_arithmetic::Bounds;

/// The bounds of `a b`, of which `two_product` makes `p`, far from 0.
pub(crate) fn far_bounds(a: f64, b: f64, p: CDouble) -> Bounds<f64>
    requires { (p ≡ two_product a b) × AtMost 510 a × AtMost 510 b × Far p.hi }
    ensures { (result.down ≡ product_down a b) × (result.up ≡ product_up a b) }
{
    Bounds {
        down: shifted::<false>(p),
        up: shifted::<true>(p),
    }
}

/// The bounds of `a b`, for factors with the halves `s` and `t`, whose product cannot be too large for `two_product`.
pub(crate) fn near_product(a: f64, s: CDouble, b: f64, t: CDouble) -> Bounds<f64>
    requires { (s ≡ split a) × (t ≡ split b) × AtMost 510 a × AtMost 510 b }
    ensures { (result.down ≡ product_down a b) × (result.up ≡ product_up a b) }
{
    let p = CDouble::halved_product(a, s, b, t);
    if far(p.hi) {
        far_bounds(a, b, p)
    } else {
        outward_by_ranks::product_bounds(a, b)
    }
}

/// The greatest double not above `a b` and the least not below it; where a factor is not finite both are IEEE 754's product.
pub fn product_bounds(a: f64, b: f64) -> Bounds<f64>
    ensures { (result.down ≡ product_down a b) × (result.up ≡ product_up a b) }
{
    if within(a, CDouble::MOST_FACTOR) & within(b, CDouble::MOST_FACTOR) {
        near_product(a, CDouble::split(a), b, CDouble::split(b))
    } else {
        outward_by_ranks::product_bounds(a, b)
    }
}
