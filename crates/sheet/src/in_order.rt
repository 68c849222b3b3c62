//! What is asked of the sheet, in document 01's order, and the answer, before anything is weighed.
ghost use Rattle.std.specs.Prelude.{◌≡◌, true, List, ◌+◌};
ghost use Rattle.questions.specs.declared.widened.Widened.{Widened};
ghost use Rattle.questions.specs.Questions.{sizes_fine};
ghost use Rattle.questions.specs.WidenedList.{widened_fine};
ghost use Rattle.sheet.specs.Lent.{lent_sheet};
ghost use Rattle.sheet.specs.Answers.{answer_to, first_no};
ghost use Rattle.sheet.specs.Numbers.{answer_number};

use crate::answers::{lengths_fine, sizes_fine};
use crate::{Outputs, Refusal, Sheet};
use questions::{
    all_finite, basis_fine, bounds_fine, columns_fine, entries_fine, leaving_row_fine, starts_fine,
    tolerances_fine,
};

/// One question: a "no" is its refusal.
fn refuse_unless(fine: bool, refusal: Refusal) -> Result<(), Refusal>
    ensures { result ≡ answer_to fine refusal }
{
    if fine { Ok(()) } else { Err(refusal) }
}

/// The first question, from the second on, whose answer is no. `fine` is what the eleventh answers, of a sheet that passes the second.
pub fn first_no(s: &Sheet, fine: bool, outputs: Outputs) -> Result<(), Refusal>
    ensures { (widened : List Widened)
        → (sizes_fine s.now.rows s.now.structurals s.now.entry_count ≡ true → fine ≡ widened_fine (s.now.structurals + s.now.rows) widened)
        → answer_number result ≡ first_no (lent_sheet s.now widened outputs) }
{
    refuse_unless(sizes_fine(s), Refusal::Sizes)?;
    refuse_unless(lengths_fine(s, outputs), Refusal::Lengths)?;
    refuse_unless(
        starts_fine(s.rows, s.entry_count, s.starts),
        Refusal::RowStarts,
    )?;
    refuse_unless(
        columns_fine(s.rows, s.structurals, s.starts, s.columns),
        Refusal::Columns,
    )?;
    refuse_unless(
        entries_fine(s.rows, s.starts, s.entries, s.right_sides),
        Refusal::Entries,
    )?;
    refuse_unless(bounds_fine(s.mins, s.maxs), Refusal::Bounds)?;
    refuse_unless(
        tolerances_fine(s.feasibility, s.scales, s.low_tolerances, s.high_tolerances),
        Refusal::Tolerances,
    )?;
    refuse_unless(basis_fine(s.rows, s.basic, s.places), Refusal::Basis)?;
    refuse_unless(all_finite(s.values), Refusal::Values)?;
    refuse_unless(fine, Refusal::Widened)?;
    refuse_unless(leaving_row_fine(s.rows, s.leaving_row), Refusal::LeavingRow)
}
