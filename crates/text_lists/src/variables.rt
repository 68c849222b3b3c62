//! The lines of the variables, read into lent slices: the structural variables' first, then the slacks'.
ghost use Rattle.std.specs.Prelude.{◌≡◌, ◌≤◌};
ghost use Rattle.text_lists.specs.VariablesLent.{SameSlices, lent_variables, with_variable, with_variables};
ghost use Rattle.text_lists.specs.Variables.{variable_lines, variable_lines_end};

use crate::VariableLists;
use repeats::put;
use text_lines::{VariableLine, line_at};

// What a line says of the i-th variable, stored; whether it is integer only if it is structural: a slack has no such flag.
fn store_variable(i: usize, structurals: usize, line: VariableLine, l: &mut VariableLists)
    ensures same_slices { SameSlices l.old l.new }
    ensures value { lent_variables l.new ≡ with_variable structurals i line (lent_variables l.old) }
{
    if i < structurals {
        put(l.integer, i, u8::from(line.integer));
    }
    put(l.mins, i, line.min);
    put(l.maxs, i, line.max);
    put(l.low_tolerances, i, line.low);
    put(l.high_tolerances, i, line.high);
    put(l.basic, i, u8::from(line.basic));
    put(l.places, i, line.place);
    put(l.values, i, line.value);
}

/// The lines of `count` variables from a position on, of which the first `structurals` are structural, and the position
/// after them. A slice shorter than its list holds the front of it.
pub fn read_variables(
    text: &[u8],
    position: Option<usize>,
    structurals: usize,
    count: usize,
    l: &mut VariableLists,
) -> Option<usize>
    requires { structurals ≤ count }
    ensures value { result ≡ variable_lines_end text.now structurals count position }
    ensures same_slices { SameSlices l.old l.new }
    ensures lists { lent_variables l.new ≡ with_variables (variable_lines text.now structurals structurals position) (variable_lines text.now structurals count position) (lent_variables l.old) }
{
    let mut next = position;
    // Kept: `i` is the place in eight lists, of which one may be shorter than the others.
    for i in 0..count {
        let line = line_at(text, structurals, i, next);
        store_variable(i, structurals, line, l);
        next = line.next;
    }
    next
}
