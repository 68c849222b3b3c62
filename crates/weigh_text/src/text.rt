//! The verdict on a text: the first question, then the verdict on the sheet that the text says.
ghost use Rattle.std.specs.Prelude.{◌≡◌, List, []};
ghost use Rattle.questions.specs.declared.widened.Widened.{Widened};
ghost use Rattle.questions.specs.Marks.{count_of, marks_of};
ghost use Rattle.sheet.specs.Numbers.{numbered};
ghost use Rattle.sheet_text.specs.Lent.{lent_lists};
ghost use Rattle.verdict.specs.Verdict.{verdict};
ghost use Rattle.weigh_text.specs.Fronts.{HasRoom, fronts};
ghost use Rattle.weigh_text.specs.TextVerdict.{sheet_with, text_verdict};

use crate::front_verdict;
use questions::{MOST_ENTRIES, MOST_ROWS, MOST_STRUCTURALS, MOST_VARIABLES, Marks};
use sheet::{Refusal, Sheet};
use sheet_text::{Read, SheetLists, follows_form, read_sheet};
use text_lists::{RhoLists, RowLists, VariableLists};
use verdict::Verdict;

/// The verdict on the sheet at the fronts of lists that a text was read into. It is that of the sheet with any widened list that
/// has these marks.
fn verdict_in(read: Read, l: &SheetLists, marks: &Marks) -> Result<Verdict, Refusal>
    requires { HasRoom (sheet_with read (lent_lists l.now) []) }
    ensures { (widened : List Widened) → marks.now ≡ marks_of (count_of read.rows read.structurals) widened →
        numbered result ≡ verdict (fronts (sheet_with read (lent_lists l.now) widened)) }
{
    let s = Sheet {
        rows: read.rows,
        structurals: read.structurals,
        entry_count: read.entries,
        feasibility: read.feasibility,
        checked: read.checked,
        leaving_row: read.leaving_row,
        leaving_up: read.leaving_up,
        starts: l.rows.starts,
        columns: l.rows.columns,
        entries: l.rows.entries,
        right_sides: l.rows.right_sides,
        scales: l.rows.scales,
        integer: l.variables.integer,
        mins: l.variables.mins,
        maxs: l.variables.maxs,
        low_tolerances: l.variables.low_tolerances,
        high_tolerances: l.variables.high_tolerances,
        basic: l.variables.basic,
        places: l.variables.places,
        values: l.variables.values,
        rho_hi: l.rhos.rho_hi,
        rho_lo: l.rhos.rho_lo,
        second: l.rhos.second,
    };
    front_verdict(&s, marks)
}

// Kept: no heap; sixteen local arrays, since a struct that owns them lists each again, in its type and where it is built, and is no plainer.
/// The text is read into lists and marks of this function's own, so nothing lent changes. They have room for the largest sheet that
/// the second question allows; of a longer one the rest is read and not kept.
pub fn text_verdict(text: &[u8]) -> Result<Verdict, Refusal>
    ensures { numbered result ≡ text_verdict text.now }
{
    let mut starts = [0; MOST_ROWS + 1];
    let mut columns = [0; MOST_ENTRIES];
    let mut entries = [0.0; MOST_ENTRIES];
    let mut right_sides = [0.0; MOST_ROWS];
    let mut scales = [0.0; MOST_ROWS];
    let mut integer = [0u8; MOST_STRUCTURALS];
    let mut mins = [0.0; MOST_VARIABLES];
    let mut maxs = [0.0; MOST_VARIABLES];
    let mut low_tolerances = [0.0; MOST_VARIABLES];
    let mut high_tolerances = [0.0; MOST_VARIABLES];
    let mut basic = [0u8; MOST_VARIABLES];
    let mut places = [0; MOST_VARIABLES];
    let mut values = [0.0; MOST_VARIABLES];
    let mut rho_hi = [0.0; MOST_ROWS];
    let mut rho_lo = [0.0; MOST_ROWS];
    let mut second = [0.0; MOST_ROWS];
    let mut l = SheetLists {
        variables: VariableLists {
            integer: &mut integer,
            mins: &mut mins,
            maxs: &mut maxs,
            low_tolerances: &mut low_tolerances,
            high_tolerances: &mut high_tolerances,
            basic: &mut basic,
            places: &mut places,
            values: &mut values,
        },
        rows: RowLists {
            right_sides: &mut right_sides,
            scales: &mut scales,
            starts: &mut starts,
            columns: &mut columns,
            entries: &mut entries,
        },
        rhos: RhoLists {
            rho_hi: &mut rho_hi,
            rho_lo: &mut rho_lo,
            second: &mut second,
        },
    };
    let mut marks = Marks::none();
    let read = read_sheet(text, &mut l, &mut marks);
    if !follows_form(text.len(), read.next) {
        return Err(Refusal::Form);
    }
    verdict_in(read, &l, &marks)
}
