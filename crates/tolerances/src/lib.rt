//! The tolerances that the certificate rests on, and the bound that a tolerance moves, as the Rust has them. Every function takes
//! every number and asks nothing of its caller.

#![tactic(auto)]

ghost use Rattle.std.specs.Prelude.{◌≡◌};
ghost use Rattle.tolerances.specs.Tolerances.{implied_slack_error, row_tolerance, slack_margin, slack_tol, toward, trimmed_room};

use double_bits::{max, min};
use std::num::nearest_u64_to_f64;

mod band;

pub use band::band_edge;

/// A variable's tolerances at its lower and upper bound.
#[derive(Clone, Copy)]
pub struct BoundTols {
    pub lo: f64,
    pub hi: f64,
}

impl BoundTols {
    /// No tolerance on a quantity is finer than this part of the magnitude that it was computed from.
    pub const ROUNDOFF_FLOOR: f64 = 1e-14;

    /// The unit round-off of a double, 2^-53.
    pub const UNIT_ROUNDOFF: f64 = 1.1102230246251565e-16;

    /// The tolerance at the bound that a value moving up, or down, meets.
    #[tactic(auto, unfolding(crate::specs::Tolerances::toward))]
    pub fn toward(self, up: bool) -> f64
        ensures { result ≡ toward self up }
    {
        if up { self.hi } else { self.lo }
    }
}

/// What a quantity of magnitude `magnitude` is held to under the absolute tolerance `tol`.
#[tactic(auto, using(crate::proofs::Literals::floor_is), unfolding(crate::specs::Tolerances::row_tolerance))]
pub fn row_tolerance(tol: f64, magnitude: f64) -> f64
    ensures { result ≡ row_tolerance tol magnitude }
{
    max(tol, BoundTols::ROUNDOFF_FLOOR * magnitude)
}

/// What `slack_tol` takes off for the round-off of evaluating a row of `terms` terms.
#[tactic(auto, using(crate::proofs::Literals::unit_is, crate::proofs::Literals::half_is, cdouble::proofs::Contracts::two_is), unfolding(crate::specs::Tolerances::slack_margin))]
pub fn slack_margin(tol: f64, magnitude: f64, terms: usize) -> f64
    ensures { result ≡ slack_margin tol magnitude terms }
{
    let margin = (nearest_u64_to_f64(terms as u64) + 2.0) * BoundTols::UNIT_ROUNDOFF * magnitude;
    min(margin, 0.5 * row_tolerance(tol, magnitude))
}

/// The tolerance within which a row counts as satisfied.
#[tactic(auto, unfolding(crate::specs::Tolerances::slack_tol))]
pub fn slack_tol(tol: f64, magnitude: f64, terms: usize) -> f64
    ensures { result ≡ slack_tol tol magnitude terms }
{
    row_tolerance(tol, magnitude) - slack_margin(tol, magnitude, terms)
}

/// How far a slack that is not leaving may move past its bound, from its row's tolerance, magnitude and terms.
#[tactic(auto, unfolding(crate::specs::Tolerances::trimmed_room))]
pub fn trimmed_room(tol: f64, magnitude: f64, terms: usize) -> f64
    ensures { result ≡ trimmed_room tol magnitude terms }
{
    max(
        slack_tol(tol, magnitude, terms) - slack_margin(tol, magnitude, terms),
        0.0,
    )
}

/// A bound on the error of a row's compensated sum, at a slack of magnitude `slack`.
#[tactic(auto, using(crate::proofs::Literals::unit_is, cdouble::proofs::Contracts::two_is, crate::proofs::Literals::four_is), unfolding(crate::specs::Tolerances::implied_slack_error))]
pub fn implied_slack_error(slack: f64, magnitude: f64, terms: usize) -> f64
    ensures { result ≡ implied_slack_error slack magnitude terms }
{
    let n = nearest_u64_to_f64(terms as u64) + 2.0;
    4.0 * BoundTols::UNIT_ROUNDOFF * slack
        + 4.0 * n * n * BoundTols::UNIT_ROUNDOFF * BoundTols::UNIT_ROUNDOFF * magnitude
}
