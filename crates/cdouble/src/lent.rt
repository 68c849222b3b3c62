//! Sums of double-doubles in place, for callers who keep a running sum in memory of their own.
ghost use Rattle.std.specs.Prelude.{◌≡◌};
ghost use Rattle.cdouble.specs.Compensated.{plus, plus_scaled};

use crate::CDouble;

/// `p + v`, in place.
pub fn cdouble_add(p: &mut CDouble, v: f64)
    ensures { p.new ≡ plus p.old v }
{
    *p = CDouble::add(*p, v);
}

/// `p + c · b`, in place.
pub fn cdouble_add_scaled(p: &mut CDouble, c: CDouble, b: f64)
    ensures { p.new ≡ plus_scaled p.old c b }
{
    *p = CDouble::add_scaled(*p, c, b);
}
