//! The right side of the combined row, every product and sum rounded down.

ghost use Rattle.std.specs.Prelude.{◌≡◌, ℕ};
ghost use Rattle.gaps.specs.Steps.{right_side, with_right_side};
ghost use Rattle.outward_gap.specs.Lent.{kept_in, rows_lent};
ghost use Rattle.outward_gap.specs.Reads.{RowsFit};

use crate::Rows;
use multipliers::Multiplier;
use outward_by_errors::{product_bounds, rounded_sum};

/// A row with the right side `b`, into the right side so far.
#[tactic(auto, unfolding(gaps::specs::Steps::with_right_side))]
fn with_right_side(m: Multiplier, b: f64, sum: f64) -> f64
    ensures { result ≡ with_right_side m b sum }
{
    if let Multiplier::Kept(y) = m {
        let high = product_bounds(y.hi, b);
        let low = product_bounds(y.lo, b);
        rounded_sum::<false>(rounded_sum::<false>(sum, high.down), low.down)
    } else {
        sum
    }
}

/// The right side of the kept rows, in ascending order.
pub fn right_side(rows: &Rows, multipliers: &[Multiplier]) -> f64
    requires { RowsFit rows.now multipliers.now }
    ensures { (variables : ℕ) → (let m = rows_lent rows.now variables in result ≡ right_side (kept_in multipliers.now) m m.count) }
{
    let mut sum = 0.0;
    for (m, b) in multipliers.iter().zip(rows.right_sides) {
        sum = with_right_side(*m, *b, sum);
    }
    sum
}
