//! The sheet as a text: whether it follows the form of document 01, and the sheet that it says, read into lent slices, its
//! widened list as marks.

#![tactic(auto)]

ghost use Rattle.std.specs.Prelude.{◌≡◌};
ghost use Rattle.questions.specs.Marks.{count_of, marks_of, no_marks};
ghost use Rattle.sheet_text.specs.Form.{read_in, form_met};
ghost use Rattle.sheet_text.specs.Lent.{SameSlices, lent_lists, lists_in};
ghost use Rattle.sheet_text.specs.SheetIn.{sheet_in};

use questions::{Marks, variable_count};
use text_items::MOST_BYTES;
use text_lines::{heading_lines, leave_line, multipliers_line};
use text_lists::{read_multipliers, read_rows, read_variables, read_widened};

mod lent;

pub use lent::SheetLists;

/// What a text says apart from its lists.
#[derive(Clone, Copy)]
pub struct Read {
    /// How many rows, structural variables and entries there are.
    pub rows: usize,
    pub structurals: usize,
    pub entries: usize,
    pub feasibility: f64,
    /// 1 if the multipliers are checked, else 0.
    pub checked: u8,
    pub leaving_row: usize,
    /// 1 if it leaves up, else 0.
    pub leaving_up: u8,
    /// The position after the last line.
    pub next: Option<usize>,
}

/// The sheet that a text says. Each list goes to a slice, from its front on; a slice that is shorter holds the front of its
/// list. The first place of `starts`, where the first row starts, is the caller's, and is to hold 0. Each widened item sets its
/// mark. Whether the text follows the form is for `follows_form` to say; of one that does not, what is read here means nothing.
pub fn read_sheet(text: &[u8], l: &mut SheetLists, marks: &mut Marks) -> Read
    requires { marks.old ≡ no_marks }
    ensures value { result ≡ read_in text.now }
    ensures same_slices { SameSlices l.old l.new }
    ensures lists { lent_lists l.new ≡ lists_in text.now (lent_lists l.old) }
    ensures marks_after { let s = sheet_in text.now in marks.new ≡ marks_of (count_of s.rows s.structurals) s.widened }
{
    let head = heading_lines(text);
    let lines = head.structurals + head.rows;
    let from = read_variables(text, head.next, head.structurals, lines, &mut l.variables);
    let rows = read_rows(text, from, head.rows, &mut l.rows);
    let count = variable_count(head.rows, head.structurals);
    let behind = read_widened(text, rows.next, count, marks);
    let multipliers = multipliers_line(text, behind);
    let checked = u8::from(multipliers.value);
    let last = read_multipliers(text, checked, multipliers.next, head.rows, &mut l.rhos);
    let leave = leave_line(text, last);
    Read {
        rows: head.rows,
        structurals: head.structurals,
        entries: rows.count,
        feasibility: head.feasibility,
        checked,
        leaving_row: leave.number,
        leaving_up: u8::from(leave.up),
        next: leave.next,
    }
}

/// The answer to the first question, of a text with `length` bytes whose last line ends at the position `next`, if it does.
pub fn follows_form(length: usize, next: Option<usize>) -> bool
    ensures { result ≡ form_met length next }
{
    length <= MOST_BYTES && next == Some(length)
}
