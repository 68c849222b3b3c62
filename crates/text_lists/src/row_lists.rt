//! The rows, each with its pairs of a column and an entry.
ghost use Rattle.std.specs.Prelude.{◌≡◌, ◌+◌, ◌<◌, ◌^◌};
ghost use Rattle.text_lists.specs.Lent.{SameRows, lent_rows, with_pair, with_pairs, with_row, with_rows};
ghost use Rattle.text_lists.specs.Rows.{pairs, pairs_reached, row_pairs, row_line, row_lines, rows_pairs, rows_reached};

use crate::lent::RowLists;
use repeats::put;
use text_items::MOST_BYTES;
use text_lines::{Pair, no_pair, pair_at, row_end, row_head};

/// How far a list was read.
#[derive(Clone, Copy)]
pub struct Reached {
    /// How many things were read so far.
    pub count: usize,
    /// The position after them.
    pub next: Option<usize>,
}

/// What a row's line says of it.
#[derive(Clone, Copy)]
pub struct RowLine {
    pub right: f64,
    pub scale: f64,
    /// How many pairs the sheet has up to its end.
    pub end: usize,
    /// The position after the line.
    pub next: Option<usize>,
}

// A pair, stored as the i-th entry.
fn store_pair(i: usize, item: Pair, l: &mut RowLists)
    ensures same_slices { SameRows l.old l.new }
    ensures value { lent_rows l.new ≡ with_pair i item (lent_rows l.old) }
{
    put(l.columns, i, item.column);
    put(l.entries, i, item.entry);
}

// The pairs from a position on, stored behind the `first` that the sheet has before them.
fn read_pairs(text: &[u8], position: Option<usize>, first: usize, l: &mut RowLists) -> Reached
    ensures value { result ≡ pairs_reached text.now first position }
    ensures same_slices { SameRows l.old l.new }
    ensures lists { lent_rows l.new ≡ with_pairs first (pairs text.now first position) (lent_rows l.old) }
{
    let mut next = position;
    // Kept: `count` is the place in both lists, which may be shorter, and is part of the answer.
    for count in first..MOST_BYTES {
        if no_pair(text, next) {
            return Reached { count, next };
        }
        let item = pair_at(text, next);
        store_pair(count, item, l);
        next = item.next;
    }
    Reached {
        count: first.max(MOST_BYTES),
        next,
    }
}

// The line of a row.
#[tactic(auto, unfolding(crate::specs::Rows::row_line, crate::specs::Rows::row_pairs))]
fn read_row(text: &[u8], position: Option<usize>, first: usize, l: &mut RowLists) -> RowLine
    ensures value { result ≡ row_line text.now first position }
    ensures same_slices { SameRows l.old l.new }
    ensures lists { lent_rows l.new ≡ with_pairs first (row_pairs text.now first position) (lent_rows l.old) }
{
    let head = row_head(text, position);
    let reached = read_pairs(text, head.next, first, l);
    RowLine {
        right: head.right,
        scale: head.scale,
        end: reached.count,
        next: row_end(text, reached.next),
    }
}

// What the i-th row's line says of it, stored.
fn store_row(i: usize, row: RowLine, l: &mut RowLists)
    requires { i + 1 < 2 ^ 64 }
    ensures same_slices { SameRows l.old l.new }
    ensures value { lent_rows l.new ≡ with_row i row (lent_rows l.old) }
{
    put(l.right_sides, i, row.right);
    put(l.scales, i, row.scale);
    put(l.starts, i + 1, row.end);
}

/// The lines of the rows from a position on. The end of row i is stored at the place i + 1 of `starts`; its first place,
/// where the first row starts, is the caller's.
pub fn read_rows(text: &[u8], position: Option<usize>, rows: usize, l: &mut RowLists) -> Reached
    ensures value { result ≡ rows_reached text.now rows position }
    ensures same_slices { SameRows l.old l.new }
    ensures lists { lent_rows l.new ≡ with_rows (row_lines text.now rows position) (rows_pairs text.now rows position) (lent_rows l.old) }
{
    let mut next = position;
    let mut count = 0;
    // Kept: `i` is the place in three lists, of which one may be shorter than the others.
    for i in 0..rows {
        let row = read_row(text, next, count, l);
        store_row(i, row, l);
        next = row.next;
        count = row.end;
    }
    Reached { count, next }
}
