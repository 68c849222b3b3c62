//! Digits 0-9A-F, and the doubles that 64 bits are the pattern of.

#![tactic(auto)]

ghost use Rattle.std.specs.Prelude.{◌≡◌};
ghost use Rattle.std.specs.Float.{binary64};
ghost use Rattle.std.specs.Float.Ieee.{of_bits, to_bits};
ghost use Rattle.hex_digits.specs.Digit.{digit_of};

use std::num::{f64_from_bits_with_nan, f64_to_bits_with_nan};

/// The value of a digit 0-9A-F. No other byte has one.
pub fn digit_of(c: u8) -> Option<u8>
    ensures { result ≡ digit_of c }
{
    match c {
        b'0'..=b'9' => Some(c - b'0'),
        b'A'..=b'F' => Some(c - b'A' + 10),
        _ => None,
    }
}

// Kept: `double_of` and `bits_of` are public, with promises and edits of their own; a `pub use` of the library's two would leave nothing to edit.
/// The double with a pattern; a NaN's gives a NaN, where `from_bits` is not defined.
pub fn double_of(bits: u64) -> f64
    ensures { result ≡ of_bits binary64 bits }
{
    f64_from_bits_with_nan(bits)
}

/// A double's pattern, the same for every NaN.
pub fn bits_of(v: f64) -> u64
    ensures { result ≡ to_bits binary64 v }
{
    f64_to_bits_with_nan(v)
}
