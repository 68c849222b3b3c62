//! The numbers of a lent sheet are doubles.
ghost use Rattle.std.specs.Prelude.{List};
ghost use Rattle.questions.specs.declared.widened.Widened.{Widened};
ghost use Rattle.sheet.specs.declared.outputs.Outputs.{Outputs};
ghost use Rattle.sheet.specs.Lent.{lent_sheet};
ghost use Rattle.sheet.specs.Sheet.{AllDoubles, Doubles};

use crate::Sheet;

/// The numbers of a lent slice are doubles, as its type says. A proof learns it by this call, which does nothing.
fn slice_of_doubles(xs: &[f64])
    ensures { AllDoubles xs.now }
{}

/// So are those of the sheet, whatever its widened list is and however many places are lent for outputs.
pub fn sheet_of_doubles(s: &Sheet)
    ensures { (widened : List Widened) (outputs : Outputs) → Doubles (lent_sheet s.now widened outputs) }
{
    slice_of_doubles(s.entries);
    slice_of_doubles(s.right_sides);
    slice_of_doubles(s.scales);
    slice_of_doubles(s.mins);
    slice_of_doubles(s.maxs);
    slice_of_doubles(s.low_tolerances);
    slice_of_doubles(s.high_tolerances);
    slice_of_doubles(s.values);
    slice_of_doubles(s.rho_hi);
    slice_of_doubles(s.rho_lo);
    slice_of_doubles(s.second);
    slice_of_doubles(&[s.feasibility]);
}
