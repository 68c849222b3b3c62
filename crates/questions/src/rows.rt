//! Questions over the rows, whose columns and entries are handed on as parts of the lent slices.
ghost use Rattle.std.specs.Prelude.{◌≡◌, ◌+◌, ◌-◌, ◌<◌, ◌≤◌, ◌^◌, length, get_or};
ghost use Rattle.loops.specs.Places.{all_below};
ghost use Rattle.questions.specs.Rows.{part, RowsLie};
ghost use Rattle.questions.specs.RowQuestions.{column_fine_at, columns_fine, entries_fine, row_columns_fine, slack_entry_fine, slack_entry_fine_at, starts_fine};

use crate::all_finite;

/// The fourth question.
pub fn starts_fine(rows: usize, entries: usize, starts: &[usize]) -> bool
    requires { length starts.now ≡ rows + 1 }
    ensures { result ≡ starts_fine rows entries starts.now }
{
    (starts[0] == 0) & starts.is_sorted() & (starts[rows] == entries)
}

/// Whether the columns but the last are structural, each below the next. Since each is, they are structural where the last of them is.
fn ascending(structurals: usize, columns: &[usize]) -> bool
    ensures { result ≡ all_below (length columns.now - 1) (column_fine_at structurals columns.now) }
{
    match columns {
        [.., before, _] => {
            columns.is_sorted_by(|column, next| *column < *next) & (*before < structurals)
        }
        _ => true,
    }
}

/// The fifth question, of one row.
fn row_columns_fine(structurals: usize, slack: usize, columns: &[usize]) -> bool
    ensures { result ≡ row_columns_fine structurals slack columns.now }
{
    match columns {
        [.., last] => ascending(structurals, columns) & (*last == slack),
        [] => false,
    }
}

/// A row's part of a list that goes row after row.
fn row_part<'a, T>(starts: &[usize], row: usize, xs: &'a [T]) -> &'a [T]
    requires row_in_bounds { row + 1 < length starts.now }
    requires rises { get_or starts.now row 0 ≤ get_or starts.now (row + 1) 0 }
    requires inside { get_or starts.now (row + 1) 0 ≤ length xs.now }
    ensures { result.now ≡ part starts.now row xs.now }
{
    &xs[starts[row]..starts[row + 1]]
}

/// The fifth question.
pub fn columns_fine(rows: usize, structurals: usize, starts: &[usize], columns: &[usize]) -> bool
    requires rows_lie { RowsLie rows (length columns.now) starts.now }
    requires rows_bound { structurals + rows < 2 ^ 64 }
    ensures { result ≡ columns_fine rows structurals starts.now columns.now }
{
    (0..rows).all(|r| row_columns_fine(structurals, structurals + r, row_part(starts, r, columns)))
}

/// Whether a row's slack entry is 1.
fn slack_entry_fine(entries: &[f64]) -> bool
    ensures { result ≡ slack_entry_fine entries.now }
{
    match entries {
        [.., slack] => *slack == 1.0,
        [] => false,
    }
}

/// Whether every row's is.
fn slack_entries_fine(rows: usize, starts: &[usize], entries: &[f64]) -> bool
    requires { RowsLie rows (length entries.now) starts.now }
    ensures { result ≡ all_below rows (slack_entry_fine_at starts.now entries.now) }
{
    (0..rows).all(|r| slack_entry_fine(row_part(starts, r, entries)))
}

/// The sixth question.
pub fn entries_fine(rows: usize, starts: &[usize], entries: &[f64], right_sides: &[f64]) -> bool
    requires { RowsLie rows (length entries.now) starts.now }
    ensures { result ≡ entries_fine rows starts.now entries.now right_sides.now }
{
    all_finite(entries) & all_finite(right_sides) & slack_entries_fine(rows, starts, entries)
}
