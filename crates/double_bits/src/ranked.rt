//! A double by its sign and its rank, which is the rest of its bit pattern, and the two patterns that the others are told by.
ghost use Rattle.std.specs.Prelude.{◌≡◌, true, false, ◌≤◌};
ghost use Rattle.rank_arithmetic.specs.Rank.{double, infinity};

pub use rank_arithmetic::{INFINITY, SIGN};

// Kept: `positive` and `negative` as one function, `double::<true>(r)`, would hide the sign that the names say, for two lines less.

/// The double of rank `r` that is not negative.
#[tactic(auto, using(std::proofs::lemmas::Float::not_nan_f64_bits))]
pub fn positive(r: u64) -> f64
    requires { r ≤ infinity }
    ensures { result ≡ double false r }
{
    f64::from_bits(r)
}

/// Its negative.
#[tactic(auto, using(std::proofs::lemmas::Float::not_nan_f64_bits))]
pub fn negative(r: u64) -> f64
    requires { r ≤ infinity }
    ensures { result ≡ double true r }
{
    f64::from_bits(SIGN + r)
}
