//! The five steps, from the multipliers to the gap.

ghost use Rattle.std.specs.Prelude.{◌≡◌, true, length, replicate};
ghost use Rattle.cdouble.specs.Compensated.{plus_zero};
ghost use Rattle.loops.specs.Places.{all_below};
ghost use Rattle.gaps.specs.Rows.{finite_parts};
ghost use Rattle.gaps.specs.Steps.{difference, outward_gap};
ghost use Rattle.outward_gap.specs.Lent.{kept_in, ranges_lent, rows_lent};
ghost use Rattle.outward_gap.specs.Reads.{OutwardFits};

use crate::{Ends, Rows, add_rows, largest_value, right_side};
use double_bits::is_finite;
use multipliers::Multiplier;
use outward_by_errors::rounded_sum;
use questions::MOST_VARIABLES;

/// Whether both parts of a multiplier are finite, if it is kept.
#[tactic(auto, unfolding(gaps::specs::Rows::finite_parts))]
fn finite_parts(m: Multiplier) -> bool
    ensures { result ≡ finite_parts m }
{
    match m {
        Multiplier::Kept(y) => is_finite(y.hi) & is_finite(y.lo),
        Multiplier::Zeroed(_) | Multiplier::Dropped => true,
    }
}

/// Whether those of all rows are.
fn all_finite_parts(multipliers: &[Multiplier]) -> bool
    ensures { result ≡ all_below (length multipliers.now) (λ r. finite_parts (kept_in multipliers.now r)) }
{
    multipliers.iter().all(|m| finite_parts(*m))
}

/// `b − m` rounded down, −infinity where `b` is −infinity or `m` +infinity.
fn difference(b: f64, m: f64) -> f64
    ensures { result ≡ difference b m }
{
    if (b == f64::NEG_INFINITY) | (m == f64::INFINITY) {
        f64::NEG_INFINITY
    } else {
        rounded_sum::<false>(b, -m)
    }
}

/// The outward gap where the parts of all kept multipliers are finite, the coefficients' ends gathered in lists of zeros.
fn gap_in(
    rows: &Rows,
    multipliers: &[Multiplier],
    ends: &Ends,
    lower: &mut [f64],
    upper: &mut [f64],
) -> f64
    requires fits { OutwardFits rows.now multipliers.now ends.now }
    requires cleared { (lower.old ≡ replicate (length ends.now.low.now) plus_zero) × (upper.old ≡ replicate (length ends.now.low.now) plus_zero) }
    requires finite { all_below (length multipliers.now) (λ r. finite_parts (kept_in multipliers.now r)) ≡ true }
    ensures { result ≡ outward_gap (kept_in multipliers.now) (rows_lent rows.now (length ends.now.low.now)) (ranges_lent ends.now) }
{
    add_rows(rows, multipliers, 0, lower, upper);
    let m = largest_value(lower, upper, ends, 0.0);
    difference(right_side(rows, multipliers), m)
}

/// The outward gap of the kept rows, each with its multiplier, over variables that go from their low to their high end.
pub fn outward_gap(rows: &Rows, multipliers: &[Multiplier], ends: &Ends) -> f64
    requires { OutwardFits rows.now multipliers.now ends.now }
    ensures { result ≡ outward_gap (kept_in multipliers.now) (rows_lent rows.now (length ends.now.low.now)) (ranges_lent ends.now) }
{
    if !all_finite_parts(multipliers) {
        return f64::NEG_INFINITY;
    }
    let count = ends.low.len();
    // Kept: arrays of the largest size, since there is no heap and the limits of a sheet are fixed.
    let mut lower = [0.0; MOST_VARIABLES];
    let mut upper = [0.0; MOST_VARIABLES];
    gap_in(
        rows,
        multipliers,
        ends,
        &mut lower[..count],
        &mut upper[..count],
    )
}
