//! A row of the sheet by itself.
ghost use Rattle.std.specs.Prelude.{◌≡◌, length};
ghost use Rattle.edges.specs.Row.{lent_row, row_at};
ghost use Rattle.edges.specs.RoomReads.{RowReads};

use sheet::Sheet;

/// A row's right side and scale, and the parts of the lent columns and entries that are its own.
#[derive(Clone, Copy)]
pub struct Row<'a> {
    pub right_side: f64,
    pub scale: f64,
    pub columns: &'a [usize],
    pub entries: &'a [f64],
}

/// The row `r`.
#[tactic(auto, unfolding(questions::specs::Rows::part))]
pub fn row_of<'a>(s: &Sheet<'a>, r: usize) -> Row<'a>
    requires reads { RowReads s.now.starts.now s.now.columns.now s.now.right_sides.now s.now.scales.now r }
    requires entries_len { length s.now.entries.now ≡ length s.now.columns.now }
    ensures same_len { length result.entries.now ≡ length result.columns.now }
    ensures row { lent_row result ≡ row_at s.now.starts.now s.now.columns.now s.now.entries.now s.now.right_sides.now s.now.scales.now r }
{
    let start = s.starts[r];
    let end = s.starts[r + 1];
    Row {
        right_side: s.right_sides[r],
        scale: s.scales[r],
        columns: &s.columns[start..end],
        entries: &s.entries[start..end],
    }
}
