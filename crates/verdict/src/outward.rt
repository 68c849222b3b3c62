//! The outward gap of an accepted sheet: its kept rows, and the range of each variable, lent as lists.

ghost use Rattle.std.specs.Prelude.{◌≡◌, ◌+◌, List, length};
ghost use Rattle.questions.specs.declared.widened.Widened.{Widened};
ghost use Rattle.questions.specs.Marks.{holds};
ghost use Rattle.questions.specs.WidenedList.{is_widened};
ghost use Rattle.sheet.specs.declared.outputs.Outputs.{Outputs};
ghost use Rattle.sheet.specs.Lent.{lent_sheet};
ghost use Rattle.gaps.specs.Steps.{outward_of};
ghost use Rattle.verdict.specs.Reads.{OutwardReads};

use edges::write_ranges;
use multipliers::Multiplier;
use outward_gap::{Ends, Rows, outward_gap};
use questions::{MOST_VARIABLES, Marks};
use sheet::{Lists, Sheet};

/// The outward gap, the ranges written to lists with a place for each variable.
fn outward_in(
    s: &Sheet,
    marks: &Marks,
    leaving: usize,
    multipliers: &[Multiplier],
    row_magnitudes: &[f64],
    terms: &[u32],
    low: &mut [f64],
    high: &mut [f64],
) -> f64
    requires reads { OutwardReads s.now leaving multipliers.now row_magnitudes.now terms.now }
    requires each_has { (length low.old ≡ s.now.structurals + s.now.rows) × (length high.old ≡ s.now.structurals + s.now.rows) }
    ensures { (widened : List Widened) (outputs : Outputs) → holds marks.now ≡ is_widened widened → result ≡ outward_of (lent_sheet s.now widened outputs) }
{
    write_ranges(s, marks, leaving, row_magnitudes, terms, low, high);
    let rows = Rows {
        starts: s.starts,
        columns: s.columns,
        entries: s.entries,
        right_sides: s.right_sides,
    };
    outward_gap(&rows, multipliers, &Ends { low, high })
}

/// The outward gap of a sheet whose leaving variable, multipliers and rows' magnitudes were worked out before, and so were the terms
/// counted of each variable.
pub(crate) fn outward_of(
    s: &Sheet,
    marks: &Marks,
    leaving: usize,
    multipliers: &[Multiplier],
    row_magnitudes: &[f64],
    l: &Lists,
) -> f64
    requires { OutwardReads s.now leaving multipliers.now row_magnitudes.now l.now.terms.now }
    ensures { (widened : List Widened) (outputs : Outputs) → holds marks.now ≡ is_widened widened → result ≡ outward_of (lent_sheet s.now widened outputs) }
{
    let count = s.structurals + s.rows;
    // Kept: arrays of the largest size, since there is no heap and the limits of a sheet are fixed.
    let mut low = [0.0; MOST_VARIABLES];
    let mut high = [0.0; MOST_VARIABLES];
    outward_in(
        s,
        marks,
        leaving,
        multipliers,
        row_magnitudes,
        l.terms,
        &mut low[..count],
        &mut high[..count],
    )
}
