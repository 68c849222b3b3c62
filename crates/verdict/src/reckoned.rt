//! Both reckonings of an accepted sheet, and the verdict that they make.

ghost use Rattle.std.specs.Prelude.{◌≡◌, List, [], length};
ghost use Rattle.questions.specs.declared.widened.Widened.{Widened};
ghost use Rattle.questions.specs.Marks.{holds};
ghost use Rattle.questions.specs.WidenedList.{is_widened};
ghost use Rattle.sheet.specs.Answers.{Accepted};
ghost use Rattle.sheet.specs.Outputs.{SameSlices, lent_lists, lent, sheet_lent};
ghost use Rattle.kept.specs.Kept.{filled_in};
ghost use Rattle.verdict.specs.Verdict.{full_verdict, with_outward};

use crate::Verdict;
use crate::outward::outward_of;
use edges::leaving_variable;
use judgement::Proof;
use kept::proof_of;
use multipliers::{Multiplier, error_bounds, write_multipliers};
use questions::{MOST_ROWS, Marks};
use sheet::{Lists, Sheet};

/// The verdict that both reckonings make: an order is declined only where both say so.
fn with_outward(proof: Proof, outward: f64) -> Verdict
    ensures { result ≡ with_outward proof outward }
{
    Verdict {
        proof,
        outward,
        declined: proof.holds & (0.0 < outward),
    }
}

/// The verdict on an accepted sheet, whose multipliers and rows' magnitudes are written to lists with a place for each row.
fn reckoned_with(
    s: &Sheet,
    marks: &Marks,
    multipliers: &mut [Multiplier],
    row_magnitudes: &mut [f64],
    l: &mut Lists,
    errors: &mut [f64],
) -> Verdict
    requires accepted { Accepted (sheet_lent s.now [] l.old errors.old) }
    requires each_has { (length multipliers.old ≡ s.now.rows) × (length row_magnitudes.old ≡ s.now.rows) }
    ensures promised { (widened : List Widened) → holds marks.now ≡ is_widened widened → (let whole = sheet_lent s.now widened l.old errors.old in
        (result ≡ full_verdict whole) × (lent (lent_lists l.new) errors.new ≡ filled_in whole (lent (lent_lists l.old) errors.old))) }
    ensures same_slices { SameSlices l.old l.new }
{
    let estimated = error_bounds(s);
    let leaving = leaving_variable(s.basic, s.places, s.leaving_row);
    write_multipliers(s, estimated, multipliers);
    let proof = proof_of(
        s,
        marks,
        estimated,
        leaving,
        multipliers,
        row_magnitudes,
        l,
        errors,
    );
    let outward = outward_of(s, marks, leaving, multipliers, row_magnitudes, l);
    with_outward(proof, outward)
}

/// The verdict on an accepted sheet. It is that of the sheet with any widened list that says what the marks say.
pub(crate) fn reckoned(s: &Sheet, marks: &Marks, l: &mut Lists, errors: &mut [f64]) -> Verdict
    requires { Accepted (sheet_lent s.now [] l.old errors.old) }
    ensures promised { (widened : List Widened) → holds marks.now ≡ is_widened widened → (let whole = sheet_lent s.now widened l.old errors.old in
        (result ≡ full_verdict whole) × (lent (lent_lists l.new) errors.new ≡ filled_in whole (lent (lent_lists l.old) errors.old))) }
    ensures same_slices { SameSlices l.old l.new }
{
    // Kept: arrays of the largest size, since there is no heap and the limits of a sheet are fixed.
    let mut multipliers = [Multiplier::Dropped; MOST_ROWS];
    let mut row_magnitudes = [0.0; MOST_ROWS];
    reckoned_with(
        s,
        marks,
        &mut multipliers[..s.rows],
        &mut row_magnitudes[..s.rows],
        l,
        errors,
    )
}
