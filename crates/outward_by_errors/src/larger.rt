//! The larger of two multiples of a number, rounded up, and the largest of the multiples of two.
ghost use Rattle.std.specs.Prelude.{◌≡◌, cond};
ghost use Rattle.std.specs.Float.Ieee.{lt};
ghost use Rattle.doubles.specs.Compare.{larger};
ghost use Rattle.doubles.specs.Directed.{product_up};
ghost use Rattle.cdouble.specs.Compensated.{plus_zero};

use crate::products::{near_product, product_bounds};
use crate::ranges::within;
use cdouble::CDouble;
use double_bits::max;

/// `l` where `e` is below 0, and `u` elsewhere.
fn outer(l: f64, u: f64, e: f64) -> f64
    ensures { result ≡ cond (lt e plus_zero) l u }
{
    if e < 0.0 { l } else { u }
}

/// The larger of `l e` and `u e`, rounded up. Where `l` is not above `u`, the sign of `e` tells which it is.
#[inline(always)]
pub fn larger_product(l: f64, u: f64, e: f64) -> f64
    ensures { result ≡ larger (product_up l e) (product_up u e) }
{
    if within(l, CDouble::MOST_FACTOR)
        & within(u, CDouble::MOST_FACTOR)
        & within(e, CDouble::MOST_FACTOR)
        & (l <= u)
    {
        let x = outer(l, u, e);
        near_product(x, CDouble::split(x), e, CDouble::split(e)).up
    } else {
        max(product_bounds(l, e).up, product_bounds(u, e).up)
    }
}

/// The largest of `l` and `u` times `low` and `high`, rounded up. Where both pairs are in order, and `l` and `u` have one sign, it is that
/// of one edge, which the sign tells.
#[inline(always)]
pub fn largest_product(l: f64, u: f64, low: f64, high: f64) -> f64
    ensures { result ≡ larger (larger (product_up l low) (product_up u low)) (larger (product_up l high) (product_up u high)) }
{
    if within(l, CDouble::MOST_FACTOR)
        & within(u, CDouble::MOST_FACTOR)
        & within(low, CDouble::MOST_FACTOR)
        & within(high, CDouble::MOST_FACTOR)
        & (l <= u)
        & (low <= high)
        & (0.0 < l * u)
    {
        let e = outer(low, high, l);
        let x = outer(l, u, e);
        near_product(x, CDouble::split(x), e, CDouble::split(e)).up
    } else {
        max(larger_product(l, u, low), larger_product(l, u, high))
    }
}
