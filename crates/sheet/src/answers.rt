//! What is asked of the sheet's sizes and lengths, and the answers.
ghost use Rattle.std.specs.Prelude.{◌≡◌, List, ◌+◌, ◌≤◌};
ghost use Rattle.questions.specs.Limits.{most_rows, most_structurals};
ghost use Rattle.sheet.specs.Lengths.{lengths_fine, outputs_fit, rows_fit, variables_fit};
ghost use Rattle.sheet.specs.Lent.{lent_sheet};
ghost use Rattle.questions.specs.Questions.{sizes_fine};
ghost use Rattle.questions.specs.declared.widened.Widened.{Widened};

use crate::{Outputs, Sheet};
use questions::{MOST_ENTRIES, MOST_ROWS, MOST_STRUCTURALS};

/// The second question.
pub fn sizes_fine(s: &Sheet) -> bool
    ensures { result ≡ sizes_fine s.now.rows s.now.structurals s.now.entry_count }
{
    (1 <= s.rows)
        & (s.rows <= MOST_ROWS)
        & (s.structurals <= MOST_STRUCTURALS)
        & (s.entry_count <= MOST_ENTRIES)
}

/// The third question, of the slices that go by rows and entries.
fn rows_fit(s: &Sheet) -> bool
    requires { s.now.rows ≤ most_rows }
    ensures { result ≡ rows_fit s.now.rows s.now.entry_count s.now.starts.now s.now.columns.now s.now.entries.now s.now.right_sides.now
        s.now.scales.now s.now.rho_hi.now s.now.rho_lo.now s.now.second.now }
{
    (s.starts.len() == s.rows + 1)
        & (s.columns.len() == s.entry_count)
        & (s.entries.len() == s.entry_count)
        & (s.right_sides.len() == s.rows)
        & (s.scales.len() == s.rows)
        & (s.rho_hi.len() == s.rows)
        & (s.rho_lo.len() == s.rows)
        & (s.second.len() == s.rows)
}

/// The third question, of the slices that go by variables.
fn variables_fit(s: &Sheet, count: usize) -> bool
    ensures { result ≡ variables_fit count s.now.mins.now s.now.maxs.now s.now.low_tolerances.now s.now.high_tolerances.now s.now.basic.now s.now.places.now s.now.values.now }
{
    (s.mins.len() == count)
        & (s.maxs.len() == count)
        & (s.low_tolerances.len() == count)
        & (s.high_tolerances.len() == count)
        & (s.basic.len() == count)
        & (s.places.len() == count)
        & (s.values.len() == count)
}

/// The third question, of the outputs.
fn outputs_fit(count: usize, outputs: Outputs) -> bool
    ensures { result ≡ outputs_fit count outputs }
{
    (count <= outputs.high)
        & (count <= outputs.low)
        & (count <= outputs.magnitudes)
        & (count <= outputs.terms)
        & (count <= outputs.errors)
}

/// The third question.
pub fn lengths_fine(s: &Sheet, outputs: Outputs) -> bool
    requires { (s.now.rows ≤ most_rows) × (s.now.structurals ≤ most_structurals) }
    ensures { (widened : List Widened) → result ≡ lengths_fine (lent_sheet s.now widened outputs) }
{
    let count = s.structurals + s.rows;
    rows_fit(s)
        & variables_fit(s, count)
        & (s.integer.len() == s.structurals)
        & outputs_fit(count, outputs)
}
