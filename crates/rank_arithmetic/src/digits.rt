//! The binary digits of numbers of 128 bits.
ghost use Rattle.std.specs.Prelude.{◌≡◌, ◌/◌, ◌%◌, ◌^◌, ◌<◌, ltb};
ghost use Rattle.std.specs.Float.Ieee.{size};

/// A whole part, and whether something is left of it.
#[derive(Clone, Copy)]
pub struct Cut {
    pub whole: u64,
    pub inexact: bool,
}

/// How many binary digits `n` has, by the leading zeros of its halves.
pub(crate) fn width(n: u128) -> u64
    ensures { result ≡ size n }
{
    let hi = (n >> 64) as u64;
    if hi > 0 {
        128 - u64::from(hi.leading_zeros())
    } else {
        let lo = n as u64;
        64 - u64::from(lo.leading_zeros())
    }
}

/// `n` without its `c` lowest digits. A number of 128 bits is shifted by 0 to 127 only.
pub(crate) fn without(n: u128, c: u64) -> Cut
    requires { n / 2 ^ c < 2 ^ 64 }
    ensures { (result.whole ≡ n / 2 ^ c) × (result.inexact ≡ ltb 0 (n % 2 ^ c)) }
{
    if c < 128 {
        let whole = n >> c;
        Cut {
            whole: whole as u64,
            inexact: whole << c < n,
        }
    } else {
        Cut {
            whole: 0,
            inexact: 0 < n,
        }
    }
}
