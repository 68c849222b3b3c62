//! The product of a reach, rounded up whatever the size of its factors.
ghost use Rattle.std.specs.Prelude.{◌≡◌, ◌*ℤ◌, T};
ghost use Rattle.std.specs.Float.Ieee.Scale.{finite};
ghost use Rattle.exact.specs.Value.{exact};
ghost use Rattle.doubles.specs.Directed.{IsUp};
ghost use Rattle.cdouble.specs.Compensated.{mul_up};

use crate::products::product_bounds;

/// The least double not below `a b`, +0 for a zero; where a factor is not finite, IEEE 754's product.
pub fn mul_up(a: f64, b: f64) -> f64
    ensures { (result ≡ mul_up a b) × (T (finite a) × T (finite b) → IsUp 1074 (exact a *ℤ exact b) result) }
{
    // a width of 0 is common, and `product_bounds` would work its product out from the bits
    if ((a == 0.0) | (b == 0.0)) & (a * b == 0.0) {
        0.0
    } else {
        product_bounds(a, b).up
    }
}
