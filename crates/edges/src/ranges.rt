//! The outward range of each variable that a kept row contains, written to two lists.
ghost use Rattle.std.specs.Prelude.{◌≡◌, ◌<◌, ◌≤◌, ℕ, cond, eqb, false, get_or, length, true};
ghost use Rattle.cdouble.specs.Compensated.{plus_zero};
ghost use Rattle.loops.specs.Listed.{listed};
ghost use Rattle.edges.specs.Ranges.{range_end};
ghost use Rattle.edges.specs.Edges.{edge};
ghost use Rattle.edges.specs.Model.{lent_model};
ghost use Rattle.edges.specs.RoomReads.{Known, Readable};

use crate::{Sides, both_edges};
use questions::Marks;
use sheet::Sheet;

/// The range of the variable `v`, of which so many terms are counted.
fn range_of(
    s: &Sheet,
    marks: &Marks,
    leaving: usize,
    row_magnitudes: &[f64],
    terms: u32,
    v: usize,
) -> Sides
    requires readable { Readable (lent_model s.now marks.now) v }
    requires known { eqb terms 0 ≡ false → Known (lent_model s.now marks.now) row_magnitudes.now v }
    ensures { (let m = lent_model s.now marks.now in
        (result.low ≡ cond (eqb terms 0) plus_zero (edge m leaving v false)) × (result.high ≡ cond (eqb terms 0) plus_zero (edge m leaving v true))) }
{
    if terms == 0 {
        return Sides {
            low: 0.0,
            high: 0.0,
        };
    }
    both_edges(s, marks, leaving, row_magnitudes, v)
}

/// The low end of each variable's range, written to `low`, and its high end, written to `high`. A variable of which no term is
/// counted is in no kept row, so its range is not read.
pub fn write_ranges(
    s: &Sheet,
    marks: &Marks,
    leaving: usize,
    row_magnitudes: &[f64],
    terms: &[u32],
    low: &mut [f64],
    high: &mut [f64],
)
    requires readable { (v : ℕ) → v < length low.old → Readable (lent_model s.now marks.now) v }
    requires known { (v : ℕ) → v < length low.old → eqb (get_or terms.now v 0) 0 ≡ false → Known (lent_model s.now marks.now) row_magnitudes.now v }
    requires lengths { (length high.old ≡ length low.old) × (length low.old ≤ length terms.now) }
    ensures { (let m = lent_model s.now marks.now in
        (low.new ≡ listed (length low.old) (range_end m leaving terms.now false)) × (high.new ≡ listed (length low.old) (range_end m leaving terms.now true))) }
{
    // Kept: `v` goes to three lists, and to the sheet's.
    for v in 0..low.len() {
        let ends = range_of(s, marks, leaving, row_magnitudes, terms[v], v);
        low[v] = ends.low;
        high[v] = ends.high;
    }
}
