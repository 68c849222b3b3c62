//! The parts of a row's line, `(row RIGHT SCALE (COLUMN ENTRY) .. )`: its head, one of its pairs, its end.
ghost use Rattle.std.specs.Prelude.{◌≡◌};
ghost use Rattle.text_lines.specs.RowLines.{right_side, row_head, no_pair, pair, row_end};

use text_items::{Item, count_after, double_at, double_then, expect, line_end};

/// What stands before a row's pairs.
#[derive(Clone, Copy)]
pub struct RowHead {
    pub right: f64,
    pub scale: f64,
    /// The position after it.
    pub next: Option<usize>,
}

/// A column of a row, and its entry there.
#[derive(Clone, Copy)]
pub struct Pair {
    pub column: usize,
    pub entry: f64,
    /// The position after it.
    pub next: Option<usize>,
}

// A row's right side.
fn right_side(text: &[u8], position: Option<usize>) -> Item<f64>
    ensures { result ≡ right_side text.now position }
{
    double_at(text, position)
}

/// `(row RIGHT SCALE`.
#[tactic(auto, unfolding(crate::specs::RowLines::row_head))]
pub fn row_head(text: &[u8], position: Option<usize>) -> RowHead
    ensures { result ≡ row_head text.now position }
{
    let right = right_side(text, expect(text, position, b"(row "));
    let scale = double_at(text, expect(text, right.next, b" "));
    RowHead {
        right: right.value,
        scale: scale.value,
        next: scale.next,
    }
}

/// Whether no pair stands here.
pub fn no_pair(text: &[u8], position: Option<usize>) -> bool
    ensures { result ≡ no_pair text.now position }
{
    expect(text, position, b" (").is_none()
}

/// ` (COLUMN ENTRY)`.
#[tactic(auto, unfolding(crate::specs::RowLines::pair))]
pub fn pair_at(text: &[u8], position: Option<usize>) -> Pair
    ensures { result ≡ pair text.now position }
{
    let column = count_after(text, position, b" (");
    let entry = double_then(text, column.next, b")");
    Pair {
        column: column.value,
        entry: entry.value,
        next: entry.next,
    }
}

/// The position after a row's end.
pub fn row_end(text: &[u8], position: Option<usize>) -> Option<usize>
    ensures { result ≡ row_end text.now position }
{
    line_end(text, position)
}
