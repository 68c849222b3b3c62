//! How far from 0 a double is.
ghost use Rattle.std.specs.Prelude.{◌≡◌, ◌&&◌, T};
ghost use Rattle.std.specs.Float.Ieee.{le, neg};
ghost use Rattle.std.specs.Float.Ieee.Scale.{finite};
ghost use Rattle.outward_by_errors.specs.Far.{Far};

use cdouble::CDouble;
use double_bits::SIGN;

/// Whether `x` lies from `-most` to `most`.
pub(crate) fn within(x: f64, most: f64) -> bool
    ensures { result ≡ (le (neg most) x && le x most) }
{
    (-most <= x) & (x <= most)
}

/// Whether `x` is at least 2^-966 from 0: one test of its rank, since a branch on its sign may be as good as random.
pub(crate) fn far(x: f64) -> bool
    requires { T (finite x) }
    ensures { T result → Far x }
{
    CDouble::LEAST_FAR <= x.to_bits() % SIGN
}
