//! The allowance for the round-off of the double-double.
ghost use Rattle.std.specs.Prelude.{◌≡◌};
ghost use Rattle.cdouble.specs.Compensated.{compensated_error};

use crate::CDouble;
use double_bits::max;
use std::num::nearest_u64_to_f64;

/// The allowance for the round-off of compensated sums of `terms` terms in all, the longest of `longest` terms, over terms
/// of `magnitude` in all.
#[tactic(auto, using(crate::proofs::Contracts::literals), unfolding(crate::specs::Compensated::compensated_error))]
pub fn compensated_error(terms: usize, longest: usize, magnitude: f64) -> f64
    ensures { result ≡ compensated_error terms longest magnitude }
{
    let scale = max((nearest_u64_to_f64(longest as u64) + 2.0) / 8.0, 1.0);
    (nearest_u64_to_f64(terms as u64) + 1.0) * scale * CDouble::COMPENSATED_ERROR * magnitude
}
