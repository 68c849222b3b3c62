//! Running sums, rounded to both sides, with a multiple of a double-double. What is reckoned of the double-double alone is
//! reckoned once, for all its multiples.
ghost use Rattle.std.specs.Prelude.{◌≡◌, T};
ghost use Rattle.doubles.specs.Directed.{product_down, product_up, sum_down, sum_up};
ghost use Rattle.cdouble.specs.Exactness.{AtMost};
ghost use Rattle.outward_by_errors.specs.Far.{Added};
ghost use Rattle.outward_by_errors.specs.Halved.{Halved};

use crate::products::{far_bounds, product_bounds};
use crate::ranges::{far, within};
use crate::sums::{far_sum, rounded_sum};
use cdouble::CDouble;
use rank_arithmetic::Bounds;

/// A double-double that many numbers are multiplied by, with the halves of its parts. Where it is `near`, no part is above 2^510.
#[derive(Clone, Copy)]
pub struct Factor {
    pub y: CDouble,
    pub high: CDouble,
    pub low: CDouble,
    pub near: bool,
}

/// `y` as a factor.
pub fn factor_of(y: CDouble) -> Factor
    ensures { (result.y ≡ y) × Halved result }
{
    Factor {
        y,
        high: CDouble::split(y.hi),
        low: CDouble::split(y.lo),
        near: within(y.hi, CDouble::MOST_FACTOR) & within(y.lo, CDouble::MOST_FACTOR),
    }
}

// Kept: `far_sums` and `rounded_sums` as one function would take the sums of both ends as closures, and a `requires` of each; only the frame is common.

/// `a + b` to both sides, `a` being the bounds of a far product.
fn far_sums(a: Bounds<f64>, b: Bounds<f64>) -> Bounds<f64>
    requires { Added a.down b.down × Added a.up b.up }
    ensures { (result.down ≡ sum_down a.down b.down) × (result.up ≡ sum_up a.up b.up) }
{
    Bounds {
        down: far_sum::<false>(a.down, b.down),
        up: far_sum::<true>(a.up, b.up),
    }
}

/// `a + b` to both sides.
fn rounded_sums(a: Bounds<f64>, b: Bounds<f64>) -> Bounds<f64>
    ensures { (result.down ≡ sum_down a.down b.down) × (result.up ≡ sum_up a.up b.up) }
{
    Bounds {
        down: rounded_sum::<false>(a.down, b.down),
        up: rounded_sum::<true>(a.up, b.up),
    }
}

/// `c + y a` to both sides.
fn any_scaled(y: CDouble, a: f64, c: Bounds<f64>) -> Bounds<f64>
    ensures { (result.down ≡ sum_down (sum_down c.down (product_down y.hi a)) (product_down y.lo a)) × (result.up ≡ sum_up (sum_up c.up (product_up y.hi a)) (product_up y.lo a)) }
{
    let with_high = rounded_sums(c, product_bounds(y.hi, a));
    rounded_sums(with_high, product_bounds(y.lo, a))
}

/// `c + y a` to both sides, for numbers of which no sum or product can be too large. A low part of 0 is common, and adds
/// nothing. The products come first in the sums, since they are never -0.
fn near_scaled(f: Factor, a: f64, c: Bounds<f64>) -> Bounds<f64>
    requires { Halved f × T f.near × AtMost 510 a × AtMost 1020 c.down × AtMost 1020 c.up }
    ensures { let y = f.y in (result.down ≡ sum_down (sum_down c.down (product_down y.hi a)) (product_down y.lo a)) × (result.up ≡ sum_up (sum_up c.up (product_up y.hi a)) (product_up y.lo a)) }
{
    let halves = CDouble::split(a);
    let p = CDouble::halved_product(f.y.hi, f.high, a, halves);
    if !far(p.hi) {
        return any_scaled(f.y, a, c);
    }
    let high = far_bounds(f.y.hi, a, p);
    let with_high = far_sums(high, c);
    if f.y.lo == 0.0 {
        return with_high;
    }
    let q = CDouble::halved_product(f.y.lo, f.low, a, halves);
    if !far(q.hi) {
        return rounded_sums(with_high, product_bounds(f.y.lo, a));
    }
    let low = far_bounds(f.y.lo, a, q);
    far_sums(low, with_high)
}

/// A running sum with `y a`, `y` being the factor, the high part's product first: `down` with every product and sum rounded
/// down, `up` with every one rounded up.
pub fn with_scaled(f: Factor, a: f64, down: f64, up: f64) -> Bounds<f64>
    requires { Halved f }
    ensures { let y = f.y in (result.down ≡ sum_down (sum_down down (product_down y.hi a)) (product_down y.lo a)) × (result.up ≡ sum_up (sum_up up (product_up y.hi a)) (product_up y.lo a)) }
{
    let c = Bounds { down, up };
    if f.near
        & within(a, CDouble::MOST_FACTOR)
        & within(down, CDouble::MOST_END)
        & within(up, CDouble::MOST_END)
    {
        return near_scaled(f, a, c);
    }
    any_scaled(f.y, a, c)
}
