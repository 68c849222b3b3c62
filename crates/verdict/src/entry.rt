//! The questions, and the verdict on a sheet that passes them. The entry point over slices searches the records of the widened
//! list; a reader of texts has their marks from its lines.

ghost use Rattle.std.specs.Prelude.{◌≡◌, List};
ghost use Rattle.questions.specs.declared.widened.Widened.{Widened};
ghost use Rattle.questions.specs.Marks.{count_of, marks_of};
ghost use Rattle.sheet.specs.Numbers.{numbered};
ghost use Rattle.sheet.specs.Outputs.{SameSlices, lent_lists, lent, sheet_lent};
ghost use Rattle.verdict.specs.Promised.{Promised};

use crate::Verdict;
use crate::reckoned::reckoned;
use questions::{Marks, Widened, search, variable_count};
use sheet::{Lists, Refusal, Sheet, first_no, outputs_of, sheet_of_doubles};

/// The questions, and the verdict on a sheet that passes them, its widened list lent as marks.
pub fn verdict_on(
    s: &Sheet,
    marks: &Marks,
    l: &mut Lists,
    errors: &mut [f64],
) -> Result<Verdict, Refusal>
    ensures promised { (widened : List Widened) → marks.now ≡ marks_of (count_of s.now.rows s.now.structurals) widened →
        Promised (sheet_lent s.now widened l.old errors.old) (lent (lent_lists l.old) errors.old) (lent (lent_lists l.new) errors.new) (numbered result) }
    ensures same_slices { SameSlices l.old l.new }
{
    sheet_of_doubles(s);
    first_no(s, marks.fine, outputs_of(l, errors))?;
    Ok(reckoned(s, marks, l, errors))
}

/// The entry point: the questions, and the verdict on a sheet that passes them, its widened list lent as records.
pub fn sheet_verdict(
    widened: &[Widened],
    s: &Sheet,
    l: &mut Lists,
    errors: &mut [f64],
) -> Result<Verdict, Refusal>
    ensures promised { Promised (sheet_lent s.now widened.now l.old errors.old) (lent (lent_lists l.old) errors.old) (lent (lent_lists l.new) errors.new) (numbered result) }
    ensures same_slices { SameSlices l.old l.new }
{
    let marks = search(widened, variable_count(s.rows, s.structurals));
    verdict_on(s, &marks, l, errors)
}
