//! The multipliers: `(multipliers checked)` or `(multipliers unchecked)`, then `(rho HI LO)` or `(rho HI LO SECOND)` for each row.
ghost use Rattle.std.specs.Prelude.{◌≡◌};
ghost use Rattle.text_lines.specs.MultiplierLines.{multipliers_line, second_if, rho_line};

use text_items::{Item, double_at, double_space, either, expect, line_end};

/// A row's multiplier.
#[derive(Clone, Copy)]
pub struct RhoLine {
    pub hi: f64,
    pub lo: f64,
    /// Its second correction, +0 when unchecked.
    pub second: f64,
    /// The position after the line.
    pub next: Option<usize>,
}

/// Whether the multipliers are checked.
#[tactic(auto, unfolding(crate::specs::MultiplierLines::multipliers_line))]
pub fn multipliers_line(text: &[u8], position: Option<usize>) -> Item<bool>
    ensures { result ≡ multipliers_line text.now position }
{
    either(
        text,
        expect(text, position, b"(multipliers "),
        b"checked)\n",
        b"unchecked)\n",
    )
}

// The second correction of a checked multiplier.
#[tactic(auto, unfolding(crate::specs::MultiplierLines::second_if))]
fn second_if(text: &[u8], checked: u8, position: Option<usize>) -> Item<f64>
    ensures { result ≡ second_if text.now checked position }
{
    if checked == 0 {
        Item {
            value: 0.0,
            next: position,
        }
    } else {
        double_at(text, expect(text, position, b" "))
    }
}

// Kept: the flag is a byte, set unless 0, as a sheet has it: a `bool` is a narrower type, which asks more of callers.
/// The line of a multiplier; the multipliers are checked unless `checked` is 0.
#[tactic(auto, unfolding(crate::specs::MultiplierLines::rho_line))]
pub fn rho_line(text: &[u8], checked: u8, position: Option<usize>) -> RhoLine
    ensures { result ≡ rho_line text.now checked position }
{
    let hi = double_space(text, expect(text, position, b"(rho "));
    let lo = double_at(text, hi.next);
    let second = second_if(text, checked, lo.next);
    RhoLine {
        hi: hi.value,
        lo: lo.value,
        second: second.value,
        next: line_end(text, second.next),
    }
}
