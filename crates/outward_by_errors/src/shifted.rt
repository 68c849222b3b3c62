//! The high part of a pair or its neighbour, by the low part's sign, for numbers of which a small share is more than half of a
//! unit in the last place, and hardly more than a whole one. With that added the neighbour is the nearest double.
ghost use Rattle.std.specs.Prelude.{◌≡◌, cond};
ghost use Rattle.cdouble.specs.Compensated.{◌⊕◌, ◌⊖◌, lower, plus_zero, upper};
ghost use Rattle.outward_by_errors.specs.Far.{Large, NotMinusZero, past};

use crate::stepped::past;
use cdouble::CDouble;
use double_bits::{SIGN, positive};

/// 2^-53 (1 + 2^-52).
const SHARE: f64 = 1.1102230246251568e-16;

/// `x` where it is asked for, and 0 elsewhere.
fn where_asked(asked: bool, x: f64) -> f64
    ensures { result ≡ cond asked x plus_zero }
{
    if asked { x } else { 0.0 }
}

/// `x + y` (`UP`), or `x - y`.
fn moved<const UP: bool>(x: f64, y: f64) -> f64
    ensures { result ≡ cond UP (x ⊕ y) (x ⊖ y) }
{
    if UP { x + y } else { x - y }
}

/// The high part of `s`, or its neighbour up (`UP`) or down where the low part lies there.
pub(crate) fn shifted<const UP: bool>(s: CDouble) -> f64
    requires { Large s.hi (past UP s.lo) × NotMinusZero s.hi }
    ensures { result ≡ cond UP (upper s) (lower s) }
{
    let share = SHARE * positive(s.hi.to_bits() % SIGN);
    moved::<UP>(s.hi, where_asked(past::<UP>(s.lo), share))
}
