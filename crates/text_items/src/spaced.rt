//! Items with the words around them that several lines share. Every word that a function lends makes its proof longer, so a
//! line of many items reads them through these.

ghost use Rattle.std.specs.Prelude.{◌≡◌};
ghost use Rattle.text_items.specs.Text.{bytes};
ghost use Rattle.text_items.specs.Words.{expect};
ghost use Rattle.text_items.specs.Items.{double_then, count_then};

use crate::{Item, count_then, double_then, expect};

/// A double and a space.
pub fn double_space(text: &[u8], position: Option<usize>) -> Item<f64>
    ensures { result ≡ double_then text.now position (bytes " ") }
{
    double_then(text, position, b" ")
}

/// A word, a count and a space.
pub fn count_after(text: &[u8], position: Option<usize>, word: &[u8]) -> Item<usize>
    ensures { result ≡ count_then text.now (expect text.now position word.now) (bytes " ") }
{
    let start = expect(text, position, word);
    count_then(text, start, b" ")
}

/// The end of a line.
pub fn line_end(text: &[u8], position: Option<usize>) -> Option<usize>
    ensures { result ≡ expect text.now position (bytes ")\n") }
{
    expect(text, position, b")\n")
}
