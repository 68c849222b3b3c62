//! Texts, counts and doubles put into a slice of bytes from a place on. Each function returns the place after what it put; what
//! would stand beyond the slice's end is left out.

ghost use Rattle.std.specs.Prelude.{◌≡◌, ℕ, ◌+◌, ◌≤◌, length};
ghost use Rattle.printer.specs.Digits.{hexadecimal, decimal, digit_count};
ghost use Rattle.printer.specs.Stored.{Stored};

use crate::numerals::{digit_count, put_digits};
use hex_digits::bits_of;
use repeats::put;

/// Puts a text.
#[tactic(auto, using(crate::proofs::Storing::next_byte, std::proofs::lemmas::List::take_all))]
pub fn put_text(x: &mut [u8], from: usize, text: &[u8]) -> usize
    requires { from + length text.now ≤ 65536 }
    ensures stored { Stored x.old x.new from result text.now }
    ensures value { result ≡ from + length text.now }
{
    for (i, byte) in text.iter().enumerate() {
        put(x, from + i, *byte);
    }
    from + text.len()
}

/// Puts a double's 16 digits.
#[tactic(auto, using(crate::proofs::Lengths::length_digits))]
pub fn put_double(x: &mut [u8], from: usize, v: f64) -> usize
    requires { from ≤ 60000 }
    ensures stored { Stored x.old x.new from result (hexadecimal v) }
    ensures value { result ≡ from + 16 }
{
    put_digits(x, from, bits_of(v), 16, 16);
    from + 16
}

/// Puts a count.
#[tactic(auto, using(crate::proofs::Lengths::length_digits))]
pub fn put_count(x: &mut [u8], from: usize, n: u64) -> usize
    requires { from ≤ 60000 }
    ensures stored { Stored x.old x.new from result (decimal n) }
    ensures value { result ≡ from + digit_count 19 n }
{
    let width = digit_count(n);
    put_digits(x, from, n, 10, width);
    from + width
}
