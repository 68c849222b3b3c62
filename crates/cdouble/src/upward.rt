//! Sums and distances of doubles rounded up through the double-double.
ghost use Rattle.std.specs.Prelude.{◌≡◌, ◌+ℤ◌, ◌-ℤ◌};
ghost use Rattle.exact.specs.Value.{exact};
ghost use Rattle.doubles.specs.Directed.{IsUp};
ghost use Rattle.cdouble.specs.Compensated.{add_up, distance_up, upper};
ghost use Rattle.cdouble.specs.Exactness.{abs_ℤ, SumRange};

use crate::CDouble;
use adjacent::next_up;

// Kept: `outward_by_errors` has a fast form of this that asks for a range, and `CDouble::rounded` adds first; this one asks nothing.
/// The high part of `s`, or the next double up where the low part is above 0.
#[tactic(auto, unfolding(crate::specs::Compensated::upper))]
fn upper(s: CDouble) -> f64
    ensures { result ≡ upper s }
{
    if s.lo > 0.0 { next_up(s.hi) } else { s.hi }
}

/// `a + b`, rounded up where both magnitudes are at most 2^1022.
#[tactic(auto, using(doubles::proofs::Tests::fit, crate::proofs::Consequences::add_up_least), unfolding(crate::specs::Compensated::add_up))]
pub fn add_up(a: f64, b: f64) -> f64
    ensures { (result ≡ add_up a b) × (SumRange a b → IsUp 0 (exact a +ℤ exact b) result) }
{
    upper(CDouble::two_sum(a, b))
}

/// `|a - b|`, rounded up where both magnitudes are at most 2^1022.
#[tactic(auto, using(doubles::proofs::Tests::fit, crate::proofs::Consequences::distance_up_least), unfolding(crate::specs::Compensated::distance_up))]
pub fn distance_up(a: f64, b: f64) -> f64
    ensures { (result ≡ distance_up a b) × (SumRange a b → IsUp 0 (abs_ℤ (exact a -ℤ exact b)) result) }
{
    CDouble::two_sum(a, -b).abs_up()
}
