//! The verdict on lists that stand at the front of longer ones.
ghost use Rattle.std.specs.Prelude.{◌≡◌, List, []};
ghost use Rattle.questions.specs.declared.widened.Widened.{Widened};
ghost use Rattle.questions.specs.Marks.{count_of, marks_of};
ghost use Rattle.sheet.specs.Numbers.{numbered};
ghost use Rattle.sheet.specs.Lent.{lent_sheet};
ghost use Rattle.sheet_text.specs.SheetIn.{lent_outputs};
ghost use Rattle.verdict.specs.Verdict.{verdict};
ghost use Rattle.weigh_text.specs.Fronts.{HasRoom, fronts};

use questions::{MOST_ENTRIES, MOST_ROWS, MOST_STRUCTURALS, MOST_VARIABLES, Marks};
use sheet::{Lists, Refusal, Sheet};
use verdict::{Verdict, verdict_on};

/// The verdict on the sheet whose lists are the fronts of these, as long as its sizes need, or the largest sheet's. It is that of the sheet
/// with any widened list that has these marks.
pub fn front_verdict(s: &Sheet, marks: &Marks) -> Result<Verdict, Refusal>
    requires { HasRoom (lent_sheet s.now [] lent_outputs) }
    ensures { (widened : List Widened) → marks.now ≡ marks_of (count_of s.now.rows s.now.structurals) widened →
        numbered result ≡ verdict (fronts (lent_sheet s.now widened lent_outputs)) }
{
    let rows = s.rows.min(MOST_ROWS);
    let structurals = s.structurals.min(MOST_STRUCTURALS);
    let entry_count = s.entry_count.min(MOST_ENTRIES);
    let count = structurals + rows;
    let last = rows + 1;
    let front = Sheet {
        starts: &s.starts[..last],
        columns: &s.columns[..entry_count],
        entries: &s.entries[..entry_count],
        right_sides: &s.right_sides[..rows],
        scales: &s.scales[..rows],
        integer: &s.integer[..structurals],
        mins: &s.mins[..count],
        maxs: &s.maxs[..count],
        low_tolerances: &s.low_tolerances[..count],
        high_tolerances: &s.high_tolerances[..count],
        basic: &s.basic[..count],
        places: &s.places[..count],
        values: &s.values[..count],
        rho_hi: &s.rho_hi[..rows],
        rho_lo: &s.rho_lo[..rows],
        second: &s.second[..rows],
        ..*s
    };
    // Kept: arrays of the largest size, since there is no heap and the limits are fixed.
    let mut high = [0.0; MOST_VARIABLES];
    let mut low = [0.0; MOST_VARIABLES];
    let mut magnitudes = [0.0; MOST_VARIABLES];
    let mut terms = [0; MOST_VARIABLES];
    let mut errors = [0.0; MOST_VARIABLES];
    let mut l = Lists {
        high: &mut high,
        low: &mut low,
        magnitudes: &mut magnitudes,
        terms: &mut terms,
    };
    verdict_on(&front, marks, &mut l, &mut errors)
}
