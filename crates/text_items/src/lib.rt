//! The items of a sheet's text: words, numbers, a number and the word after it. Each is read at a position of a text, and the
//! answer has the position after it.

#![tactic(auto)]

ghost use Rattle.std.specs.Prelude.{◌≡◌};
ghost use Rattle.text_items.specs.Items.{double_then, count_then};

mod numbers;
mod spaced;
mod words;

pub use numbers::{count_at, double_at};
pub use spaced::{count_after, double_space, line_end};
pub use words::{Item, MOST_BYTES, either, expect};

/// A double and the word after it.
pub fn double_then(text: &[u8], position: Option<usize>, word: &[u8]) -> Item<f64>
    ensures { result ≡ double_then text.now position word.now }
{
    double_at(text, position).then(text, word)
}

/// A count and the word after it.
pub fn count_then(text: &[u8], position: Option<usize>, word: &[u8]) -> Item<usize>
    ensures { result ≡ count_then text.now position word.now }
{
    count_at(text, position).then(text, word)
}
