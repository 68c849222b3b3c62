//! Digits of numbers, put into a slice of bytes from the last to the first.
ghost use Rattle.std.specs.Prelude.{◌≡◌, ℕ, ◌+◌, ◌<◌, ◌≤◌};
ghost use Rattle.std.proofs.lemmas.List.Edits.{sets};
ghost use Rattle.printer.specs.Digits.{digit_byte, digits, digit_count};

use repeats::put;

/// The byte of a digit.
fn digit_byte(d: u64) -> u8
    requires { d < 16 }
    ensures { result ≡ digit_byte d }
{
    if d < 10 {
        b'0' + d as u8
    } else {
        b'A' + (d as u8 - 10)
    }
}

/// Puts the last `width` digits of `n` from a place on.
// Kept: Display says which bytes it writes only where it answers Ok, and nothing promises that it does; this cannot fail.
#[tactic(auto, unfolding(crate::specs::Digits::digits), using(crate::proofs::Storing::last_digit))]
pub fn put_digits(x: &mut [u8], from: usize, n: u64, radix: u64, width: usize)
    requires { (0 < radix) × ((radix ≤ 16) × (from + width ≤ 65536)) }
    ensures { x.new ≡ sets x.old from (digits radix width n) }
{
    let mut rest = n;
    // Kept: digits come last first, and the slice may end before them, so each is put at its own place.
    for left in (0..width).rev() {
        put(x, from + left, digit_byte(rest % radix));
        rest /= radix;
    }
}

/// How many decimal digits a number has without leading zeros.
#[tactic(auto, using(crate::proofs::Numbers::digits_counted))]
pub fn digit_count(n: u64) -> usize
    ensures { (result ≡ digit_count 19 n) × (result ≤ 20) }
{
    n.max(1).ilog10() as usize + 1
}
