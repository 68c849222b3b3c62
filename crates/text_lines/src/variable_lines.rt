//! The line of a variable: `(var i MIN MAX LOW HIGH (nonbasic VALUE))`, or `r` for `i`, or `(basic PLACE VALUE)` at the end;
//! a slack's is `(slack MIN ..`.
ghost use Rattle.std.specs.Prelude.{◌≡◌};
ghost use Rattle.text_items.specs.Text.{bytes};
ghost use Rattle.text_items.specs.Words.{either};
ghost use Rattle.text_lines.specs.VariableLines.{place_if, variable_from, var_line, slack_line, line_at};

use text_items::{Item, count_then, double_space, double_then, either, expect};

/// What a variable's line says of it.
#[derive(Clone, Copy)]
pub struct VariableLine {
    /// Whether it is integer; a slack is not.
    pub integer: bool,
    pub min: f64,
    pub max: f64,
    /// Its tolerances toward each side.
    pub low: f64,
    pub high: f64,
    pub basic: bool,
    /// Its place in the basis, 0 if it has none.
    pub place: usize,
    pub value: f64,
    /// The position after the line.
    pub next: Option<usize>,
}

// The place of a basic variable, 0 for another.
#[tactic(auto, unfolding(crate::specs::VariableLines::place_if))]
fn place_if(text: &[u8], position: Option<usize>, basic: bool) -> Item<usize>
    ensures { result ≡ place_if text.now position basic }
{
    if basic {
        count_then(text, position, b" ")
    } else {
        Item {
            value: 0,
            next: position,
        }
    }
}

// Whether a variable is basic.
fn state(text: &[u8], position: Option<usize>) -> Item<bool>
    ensures { result ≡ either text.now position (bytes "(basic ") (bytes "(nonbasic ") }
{
    either(text, position, b"(basic ", b"(nonbasic ")
}

// The line from MIN on.
fn variable_from(text: &[u8], position: Option<usize>, integer: bool) -> VariableLine
    ensures { result ≡ variable_from text.now position integer }
{
    let min = double_space(text, position);
    let max = double_space(text, min.next);
    let low = double_space(text, max.next);
    let high = double_space(text, low.next);
    let basic = state(text, high.next);
    let place = place_if(text, basic.next, basic.value);
    let value = double_then(text, place.next, b"))\n");
    VariableLine {
        integer,
        min: min.value,
        max: max.value,
        low: low.value,
        high: high.value,
        basic: basic.value,
        place: place.value,
        value: value.value,
        next: value.next,
    }
}

// The line of a structural variable.
#[tactic(auto, unfolding(crate::specs::VariableLines::var_line))]
fn var_line(text: &[u8], position: Option<usize>) -> VariableLine
    ensures { result ≡ var_line text.now position }
{
    let integer = either(text, expect(text, position, b"(var "), b"i ", b"r ");
    variable_from(text, integer.next, integer.value)
}

// The line of a slack.
#[tactic(auto, unfolding(crate::specs::VariableLines::slack_line))]
fn slack_line(text: &[u8], position: Option<usize>) -> VariableLine
    ensures { result ≡ slack_line text.now position }
{
    variable_from(text, expect(text, position, b"(slack "), false)
}

/// The line of the i-th variable, the slacks last.
#[tactic(auto, unfolding(crate::specs::VariableLines::line_at))]
pub fn line_at(text: &[u8], structurals: usize, i: usize, position: Option<usize>) -> VariableLine
    ensures { result ≡ line_at text.now structurals i position }
{
    if i < structurals {
        var_line(text, position)
    } else {
        slack_line(text, position)
    }
}
