//! A row at the sheet's values.
ghost use Rattle.std.specs.Prelude.{◌≡◌, ◌≤◌, length};
ghost use Rattle.cdouble.specs.Compensated.{◌⊗◌};
ghost use Rattle.tolerances.specs.Tolerances.{trimmed_room};
ghost use Rattle.edges.specs.Activity.{row_activity, row_terms, with_entry};

use crate::Row;
use double_bits::abs;
use tolerances::trimmed_room;

/// The sum of a row's terms, and the magnitude that it was computed from.
#[derive(Clone, Copy)]
pub struct Activity {
    pub lhs: f64,
    pub magnitude: f64,
}

/// One entry more. Only a structural variable's counts.
fn with_entry(structurals: usize, values: &[f64], v: usize, coeff: f64, a: Activity) -> Activity
    requires { structurals ≤ length values.now }
    ensures { result ≡ with_entry structurals values.now v coeff a }
{
    if v < structurals {
        let term = coeff * values[v];
        Activity {
            lhs: a.lhs + term,
            magnitude: a.magnitude + abs(term),
        }
    } else {
        a
    }
}

/// The activity of a row with this right side, these columns and entries, at the variables' values.
pub fn row_activity(
    structurals: usize,
    right_side: f64,
    columns: &[usize],
    entries: &[f64],
    values: &[f64],
) -> Activity
    requires entries_len { length entries.now ≡ length columns.now }
    requires structurals_in_bounds { structurals ≤ length values.now }
    ensures { result ≡ row_activity structurals right_side columns.now entries.now values.now }
{
    let start = Activity {
        lhs: 0.0,
        magnitude: abs(right_side),
    };
    columns
        .iter()
        .zip(entries)
        .fold(start, |a, (column, coeff)| {
            with_entry(structurals, values, *column, *coeff, a)
        })
}

/// How many of a row's entries are structural: all but the slack's.
pub fn row_terms(columns: &[usize]) -> usize
    ensures { result ≡ row_terms columns.now }
{
    columns.len().saturating_sub(1)
}

/// How far the row's slack may move past its bound where it is not leaving, from the row's magnitude: no entry is read.
pub fn slack_room(feasibility: f64, row: &Row, magnitude: f64) -> f64
    ensures { result ≡ trimmed_room (feasibility ⊗ row.now.scale) magnitude (row_terms row.now.columns.now) }
{
    let tol = feasibility * row.scale;
    trimmed_room(tol, magnitude, row_terms(row.columns))
}
