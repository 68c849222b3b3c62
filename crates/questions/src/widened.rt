//! The widened list as records of a variable and a side, and what it says: one pass marks each item where it is met, so that a
//! second one is seen.
ghost use Rattle.std.specs.Prelude.{◌≡◌, ◌+◌, ◌≤◌, ◌<◌};
ghost use Rattle.questions.specs.Limits.{most_variables};
ghost use Rattle.questions.specs.Flags.{is_set};
ghost use Rattle.questions.specs.Marks.{count_of, holds, mark_of, marks_of, no_marks, noted};

use crate::{MOST_ROWS, MOST_STRUCTURALS, MOST_VARIABLES};

/// Two marks for each variable, down and up.
const MARKS: usize = 2 * MOST_VARIABLES;

// Kept: the side is a byte, set unless 0, as the C interface lends it: a `bool` is a narrower type, which asks more of callers.
/// An item of the widened list: a variable, and the side, up where the flag is set.
#[repr(C)]
#[derive(Clone, Copy)]
pub struct Widened {
    pub variable: usize,
    pub up: u8,
}

/// What a widened list says: a mark for each variable and side, and whether the eleventh question passes. Where it does not, the
/// marks say nothing.
// Kept: an array of the largest size, since there is no heap and the limits are fixed.
#[derive(Clone, Copy)]
pub struct Marks {
    pub places: [bool; MARKS],
    pub fine: bool,
}

/// The place of the mark of a variable's side.
fn mark_of(v: usize, up: bool) -> usize
    requires { v < most_variables }
    ensures { result ≡ mark_of v up }
{
    2 * v + usize::from(up)
}

/// How many variables there are, the slacks among them; none where there are more rows or structural variables than a sheet
/// may have.
// Kept: 0 and no `Option`: with no variable every item names none, which is what the marks have to say of a sheet that is too large.
pub fn variable_count(rows: usize, structurals: usize) -> usize
    ensures { result ≡ count_of rows structurals }
{
    if rows <= MOST_ROWS && structurals <= MOST_STRUCTURALS {
        structurals + rows
    } else {
        0
    }
}

impl Marks {
    /// Those of a list with no item.
    pub fn none() -> Marks
        ensures { result ≡ no_marks }
    {
        Marks {
            places: [false; MARKS],
            fine: true,
        }
    }

    /// Whether the mark of a variable's side is set.
    pub fn holds(&self, v: usize, up: bool) -> bool
        requires { v < most_variables }
        ensures { result ≡ holds self.now v up }
    {
        self.places[mark_of(v, up)]
    }

    /// One item more, of a sheet with `count` variables.
    pub fn note(&mut self, w: Widened, count: usize)
        requires { count ≤ most_variables }
        ensures { self.new ≡ noted count w self.old }
    {
        if !self.fine || w.variable >= count {
            self.fine = false;
            return;
        }
        let at = mark_of(w.variable, w.up != 0);
        self.fine = !self.places[at];
        self.places[at] = true;
    }
}

/// What a widened list says, gone through once, as far as its first item that names no variable or comes twice.
pub fn search(list: &[Widened], count: usize) -> Marks
    requires { count ≤ most_variables }
    ensures { result ≡ marks_of count list.now }
{
    let mut marks = Marks::none();
    for w in list {
        if !marks.fine {
            return marks;
        }
        marks.note(*w, count);
    }
    marks
}
