//! The words of the sheet: each is read at a position of a text, and the answer has the position after it. What does not
//! follow the form has no position after it, and nothing can be read from there on.

// Kept: text and position are two parameters: a cursor of both has to say in each contract that its text is the same, and the form's definitions speak of positions.

ghost use Rattle.std.specs.Prelude.{◌≡◌};
ghost use Rattle.text_items.specs.Words.{expect, followed_by, either};

/// The longest text, in bytes.
pub const MOST_BYTES: usize = 65_536;

// Kept: a value beside `next`, here and in the structs that hold more of them: each reader promises its value for every text, also where the form breaks.
/// What is read at a position of a text.
#[derive(Clone, Copy)]
pub struct Item<T> {
    pub value: T,
    /// The position after it; `None` if the text does not follow the form here or before.
    pub next: Option<usize>,
}

/// The position after a word.
#[tactic(auto, unfolding(crate::specs::Words::expect))]
pub fn expect(text: &[u8], position: Option<usize>, word: &[u8]) -> Option<usize>
    ensures { result ≡ expect text.now position word.now }
{
    let start = position?;
    let rest = text.get(start..).unwrap_or(&[]);
    if rest.starts_with(word) {
        Some(start + word.len())
    } else {
        None
    }
}

impl<T: Copy> Item<T> {
    /// The same, with a word after it.
    pub fn then(self, text: &[u8], word: &[u8]) -> Item<T>
        ensures { result ≡ followed_by text.now self word.now }
    {
        Item {
            value: self.value,
            next: expect(text, self.next, word),
        }
    }
}

/// Which of two words stands at a position: whether it is the first.
#[tactic(auto, unfolding(crate::specs::Words::either))]
pub fn either(text: &[u8], position: Option<usize>, first: &[u8], second: &[u8]) -> Item<bool>
    ensures { result ≡ either text.now position first.now second.now }
{
    let next = expect(text, position, first);
    if next.is_some() {
        Item { value: true, next }
    } else {
        Item {
            value: false,
            next: expect(text, position, second),
        }
    }
}
