//! One line of an answer. Each function returns the place after what it put.
ghost use Rattle.std.specs.Prelude.{◌≡◌, List, ℕ, ◌+◌, ◌≤◌, length};
ghost use Rattle.printer.specs.Digits.{hexadecimal, decimal};
ghost use Rattle.printer.specs.Stored.{Stored};
ghost use Rattle.printer.specs.Answer.{line, yes_or_no};

use crate::{put_count, put_double, put_text};

// Kept: `Shown`, no `Display`: what that writes is promised only where it answers Ok, and this cannot fail.
/// A value that a line shows.
pub trait Shown {
    /// Its text.
    ghost shown: { Self → List ℕ };

    /// Puts the text, which is short.
    fn put(self, x: &mut [u8], from: usize) -> usize
        requires { from ≤ 60000 }
        ensures stored { Stored x.old x.new from result (shown self) }
        ensures short { length (shown self) ≤ 20 };
}

impl Shown for f64 {
    ghost shown = { hexadecimal };

    fn put(self, x: &mut [u8], from: usize) -> usize {
        put_double(x, from, self)
    }
}

impl Shown for usize {
    ghost shown = { decimal };

    #[tactic(auto, using(crate::proofs::Lengths::decimal_short))]
    fn put(self, x: &mut [u8], from: usize) -> usize {
        put_count(x, from, self as u64)
    }
}

impl Shown for bool {
    ghost shown = { yes_or_no };

    fn put(self, x: &mut [u8], from: usize) -> usize {
        if self {
            put_text(x, from, b"yes")
        } else {
            put_text(x, from, b"no")
        }
    }
}

/// Puts a line: its opening, a value, and its end.
pub fn put_line<V: Shown>(x: &mut [u8], from: usize, opening: &[u8], value: V) -> usize
    requires { from + length opening.now ≤ 50000 }
    ensures stored { Stored x.old x.new from result (line opening.now (V.shown value)) }
    ensures upper_bound { result ≤ from + length opening.now + 22 }
{
    let start = put_text(x, from, opening);
    let end = value.put(x, start);
    put_text(x, end, b")\n")
}
