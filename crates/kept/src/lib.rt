//! The kept numbers of an accepted sheet lent in slices: the certificate that its multipliers suggest, and the judgement of it.

#![tactic(auto)]

ghost use Rattle.std.specs.Prelude.{◌≡◌, ◌+◌, ◌<◌, ◌≤◌, ℕ, List, [], length};
ghost use Rattle.loops.specs.Listed.{listed};
ghost use Rattle.questions.specs.declared.widened.Marks.{Marks};
ghost use Rattle.questions.specs.declared.widened.Widened.{Widened};
ghost use Rattle.questions.specs.Marks.{holds};
ghost use Rattle.questions.specs.WidenedList.{is_widened};
ghost use Rattle.sheet.specs.Answers.{Accepted};
ghost use Rattle.sheet.specs.Outputs.{SameSlices, lent_lists, lent, outputs, sheet_lent};
ghost use Rattle.edges.specs.Model.{lent_model};
ghost use Rattle.edges.specs.Ranges.{magnitude_in};
ghost use Rattle.edges.specs.RoomReads.{LentRow};
ghost use Rattle.kept.specs.Kept.{WorkedOut, filled_in, magnitudes_of, proof_of};

use certificate::certificate;
use edges::write_magnitudes;
use judgement::{Proof, judge};
use multipliers::Multiplier;
use questions::Marks;
use sheet::{Lists, Sheet};

/// The magnitude of each of the sheet's rows, by the terms that a certificate counts.
fn measure(s: &Sheet, l: &Lists, row_magnitudes: &mut [f64])
    requires readable { (r : ℕ) → r < s.now.rows → LentRow s.now r }
    requires counts_long { s.now.structurals + s.now.rows ≤ length l.now.terms.now }
    requires each_has { length row_magnitudes.old ≡ s.now.rows }
    ensures { (marks : Marks) → row_magnitudes.new ≡ listed s.now.rows (magnitude_in (lent_model s.now marks) l.now.terms.now) }
{
    write_magnitudes(s, l.terms, row_magnitudes);
}

/// The kept numbers of an accepted sheet, the certificate's lists written to what is lent for them, and the magnitudes of the
/// rows on which the slacks' rooms rest to a list with a place for each row. They are those of the sheet with any widened list
/// that says what the marks say.
pub fn proof_of(
    s: &Sheet,
    marks: &Marks,
    estimated: bool,
    leaving: usize,
    multipliers: &[Multiplier],
    row_magnitudes: &mut [f64],
    l: &mut Lists,
    errors: &mut [f64],
) -> Proof
    requires accepted { Accepted (sheet_lent s.now [] l.old errors.old) }
    requires worked_out { WorkedOut (sheet_lent s.now [] l.old errors.old) estimated leaving multipliers.now }
    requires each_has { length row_magnitudes.old ≡ s.now.rows }
    ensures kept { (widened : List Widened) → holds marks.now ≡ is_widened widened → result ≡ proof_of (sheet_lent s.now widened l.old errors.old) }
    ensures written { (widened : List Widened) → lent (lent_lists l.new) errors.new ≡ filled_in (sheet_lent s.now widened l.old errors.old) (lent (lent_lists l.old) errors.old) }
    ensures measured { (widened : List Widened) → row_magnitudes.new ≡ magnitudes_of (sheet_lent s.now widened l.old errors.old) }
    ensures same_slices { SameSlices l.old l.new }
{
    let count = s.structurals + s.rows;
    let c = certificate(s, count, estimated, multipliers, l, errors);
    measure(s, l, row_magnitudes);
    judge(
        s,
        marks,
        count,
        estimated,
        leaving,
        row_magnitudes,
        c,
        l,
        errors,
    )
}
