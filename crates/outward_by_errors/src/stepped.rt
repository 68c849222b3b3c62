//! The high part of a pair or its neighbour, by the low part's sign.
ghost use Rattle.std.specs.Prelude.{◌≡◌, cond};
ghost use Rattle.adjacent.specs.Fields.{Normal};
ghost use Rattle.cdouble.specs.Compensated.{lower, upper};
ghost use Rattle.outward_by_errors.specs.Far.{past};

use adjacent::stepped;
use cdouble::CDouble;

/// Whether a rest lies above 0 (`UP`), or below it.
pub(crate) fn past<const UP: bool>(rest: f64) -> bool
    ensures { result ≡ past UP rest }
{
    if UP { rest > 0.0 } else { rest < 0.0 }
}

/// The high part of `s`, or its neighbour up (`UP`) or down where the low part lies there.
pub(crate) fn outward<const UP: bool>(s: CDouble) -> f64
    requires { Normal s.hi (past UP s.lo) }
    ensures { result ≡ cond UP (upper s) (lower s) }
{
    stepped::<UP>(s.hi, past::<UP>(s.lo))
}
