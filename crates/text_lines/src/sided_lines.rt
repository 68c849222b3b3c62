//! The lines that name a side: `(widened VARIABLE up)` and `(leave ROW up)`, or `down`.
ghost use Rattle.std.specs.Prelude.{◌≡◌};
ghost use Rattle.text_lines.specs.SidedLines.{no_widened, sided_line, widened_line, leave_line};

use text_items::{count_after, either, expect};

/// A variable and a side of it that is widened, or the leaving row and its direction.
#[derive(Clone, Copy)]
pub struct SidedLine {
    /// The variable or the row.
    pub number: usize,
    pub up: bool,
    /// The position after the line.
    pub next: Option<usize>,
}

/// Whether no widened line stands here.
pub fn no_widened(text: &[u8], position: Option<usize>) -> bool
    ensures { result ≡ no_widened text.now position }
{
    expect(text, position, b"(widened ").is_none()
}

/// A widened line.
pub fn widened_line(text: &[u8], position: Option<usize>) -> SidedLine
    ensures { result ≡ widened_line text.now position }
{
    sided_line(text, position, b"(widened ")
}

/// The last line of a sheet.
pub fn leave_line(text: &[u8], position: Option<usize>) -> SidedLine
    ensures { result ≡ leave_line text.now position }
{
    sided_line(text, position, b"(leave ")
}

// A line that begins with a word and names a side.
#[tactic(auto, unfolding(crate::specs::SidedLines::sided_line))]
fn sided_line(text: &[u8], position: Option<usize>, word: &[u8]) -> SidedLine
    ensures { result ≡ sided_line text.now position word.now }
{
    let number = count_after(text, position, word);
    let up = either(text, number.next, b"up)\n", b"down)\n");
    SidedLine {
        number: number.value,
        up: up.value,
        next: up.next,
    }
}
