//! The magnitude at the sheet's values of each row whose slack a kept row contains, written to a list.
ghost use Rattle.std.specs.Prelude.{◌≡◌, ◌+◌, ◌<◌, ◌≤◌, ℕ, cond, eqb, length};
ghost use Rattle.cdouble.specs.Compensated.{plus_zero};
ghost use Rattle.loops.specs.Listed.{listed};
ghost use Rattle.questions.specs.declared.widened.Marks.{Marks};
ghost use Rattle.edges.specs.Model.{lent_model};
ghost use Rattle.edges.specs.Ranges.{magnitude_in};
ghost use Rattle.edges.specs.Rooms.{magnitude_at};
ghost use Rattle.edges.specs.RoomReads.{LentRow};

use crate::{row_activity, row_of};
use sheet::Sheet;

/// The magnitude of the row `r`, of whose slack so many terms are counted.
fn magnitude_of(s: &Sheet, terms: u32, r: usize) -> f64
    requires { LentRow s.now r }
    ensures { (marks : Marks) → result ≡ cond (eqb terms 0) plus_zero (magnitude_at (lent_model s.now marks) r) }
{
    if terms == 0 {
        return 0.0;
    }
    let row = row_of(s, r);
    let a = row_activity(
        s.structurals,
        row.right_side,
        row.columns,
        row.entries,
        s.values,
    );
    a.magnitude
}

/// The magnitude of each row, written to `row_magnitudes`. A slack of which no term is counted is in no kept row, so its room is
/// not read.
pub fn write_magnitudes(s: &Sheet, terms: &[u32], row_magnitudes: &mut [f64])
    requires readable { (r : ℕ) → r < length row_magnitudes.old → LentRow s.now r }
    requires lengths { s.now.structurals + length row_magnitudes.old ≤ length terms.now }
    ensures { (marks : Marks) → row_magnitudes.new ≡ listed (length row_magnitudes.old) (magnitude_in (lent_model s.now marks) terms.now) }
{
    // Kept: `r` goes to two lists, and to the sheet's.
    for r in 0..row_magnitudes.len() {
        row_magnitudes[r] = magnitude_of(s, terms[s.structurals + r], r);
    }
}
