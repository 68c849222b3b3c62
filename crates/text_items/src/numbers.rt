//! The numbers of the sheet: each is read at a position of a text, and the answer has the position after it.
ghost use Rattle.std.specs.Prelude.{◌≡◌, ◌≤◌};
ghost use Rattle.text_items.specs.Numbers.{digit_at, number, double, count};

use crate::Item;
use hex_digits::{digit_of, double_of};

// The value of the digit of a radix that stands at a position.
#[tactic(auto, unfolding(crate::specs::Numbers::digit_at))]
fn digit_at(text: &[u8], position: usize, radix: usize) -> Option<usize>
    ensures { result ≡ digit_at text.now radix position }
{
    let digit = usize::from(digit_of(*text.get(position)?)?);
    if digit < radix { Some(digit) } else { None }
}

// One to `most` digits of a radix.
#[tactic(auto, unfolding(crate::specs::Numbers::number, crate::specs::Numbers::at_least_one))]
fn number(text: &[u8], position: Option<usize>, radix: usize, most: usize) -> Item<usize>
    requires { (radix ≤ 16) × (most ≤ 16) }
    ensures { result ≡ number text.now position radix most }
{
    let Some(start) = position else {
        return Item {
            value: 0,
            next: None,
        };
    };
    let mut value = 0;
    let mut next = start;
    // Kept: `next` is counted with the value, since both come back, and the first other byte ends both.
    for done in 0..most {
        let Some(digit) = digit_at(text, next, radix) else {
            break;
        };
        value = value * radix + digit;
        next += 1;
    }
    let next = if next == start { None } else { Some(next) };
    Item { value, next }
}

/// A double, in 1 to 16 hexadecimal digits of its bits.
#[tactic(auto, unfolding(crate::specs::Numbers::double))]
pub fn double_at(text: &[u8], position: Option<usize>) -> Item<f64>
    ensures { result ≡ double text.now position }
{
    let bits = number(text, position, 16, 16);
    Item {
        value: double_of(bits.value as u64),
        next: bits.next,
    }
}

/// A count, in 1 to 5 decimal digits.
pub fn count_at(text: &[u8], position: Option<usize>) -> Item<usize>
    ensures { result ≡ count text.now position }
{
    number(text, position, 10, 5)
}
