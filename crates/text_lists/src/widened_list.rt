//! The widened lines, as many as stand there.
ghost use Rattle.std.specs.Prelude.{◌≡◌, ◌≤◌, map};
ghost use Rattle.questions.specs.Limits.{most_variables};
ghost use Rattle.questions.specs.Marks.{marks_from};
ghost use Rattle.text_lists.specs.Widened.{item, widened_lines, widened_lines_end};

use questions::{Marks, Widened};
use text_items::MOST_BYTES;
use text_lines::{SidedLine, no_widened, widened_line};

// What a line names.
fn item(line: SidedLine) -> Widened
    ensures { result ≡ item line }
{
    Widened {
        variable: line.number,
        up: u8::from(line.up),
    }
}

// Kept: the loop of `read_pairs` again: one function of both would take what stands, reads and stores as closures, with a law for each, and be longer than both loops.
/// Marks the items of the widened lines from a position on, of a sheet with `count` variables, and answers the position after
/// the lines.
pub fn read_widened(
    text: &[u8],
    position: Option<usize>,
    count: usize,
    marks: &mut Marks,
) -> Option<usize>
    requires { count ≤ most_variables }
    ensures value { result ≡ widened_lines_end text.now position }
    ensures marks_after { marks.new ≡ marks_from count marks.old (map item (widened_lines text.now position)) }
{
    let mut next = position;
    for _ in 0..MOST_BYTES {
        if no_widened(text, next) {
            return next;
        }
        let line = widened_line(text, next);
        marks.note(item(line), count);
        next = line.next;
    }
    next
}
