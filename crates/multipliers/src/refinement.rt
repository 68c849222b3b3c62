//! Whether the refinement that made the multipliers converged, so that its last correction bounds their errors.
ghost use Rattle.std.specs.Prelude.{◌≡◌, length, get_or};
ghost use Rattle.std.specs.Float.{nan};
ghost use Rattle.cdouble.specs.Compensated.{value};
ghost use Rattle.multipliers.specs.Refinement.{converges, error_bounds, finite_max_norm, norm_with, refined, rho_at};

use crate::Multiplier;
use cdouble::CDouble;
use double_bits::{abs, is_finite, max};
use sheet::Sheet;

/// One number more in the largest magnitude, which is `None` if one is not finite.
fn norm_with(norm: Option<f64>, x: f64) -> Option<f64>
    ensures { result ≡ norm_with norm x }
{
    let largest = norm?;
    if is_finite(x) {
        Some(max(largest, abs(x)))
    } else {
        None
    }
}

// Kept: `second_norm` has this loop over one list: one function of both would take an iterator with its laws, for four lines less.
/// The largest magnitude of the multipliers.
fn rho_norm(rho_hi: &[f64], rho_lo: &[f64]) -> Option<f64>
    requires { length rho_lo.now ≡ length rho_hi.now }
    ensures { result ≡ finite_max_norm (λ k. value (rho_at rho_hi.now rho_lo.now k)) (length rho_hi.now) }
{
    let mut norm = Some(0.0);
    for (hi, lo) in rho_hi.iter().zip(rho_lo) {
        let rho = CDouble { hi: *hi, lo: *lo };
        norm = norm_with(norm, rho.value());
    }
    norm
}

/// The largest magnitude of the second corrections.
fn second_norm(second: &[f64]) -> Option<f64>
    ensures { result ≡ finite_max_norm (λ k. get_or second.now k nan) (length second.now) }
{
    let mut norm = Some(0.0);
    for x in second {
        norm = norm_with(norm, *x);
    }
    norm
}

/// Whether the second correction is small enough beside the solution, by their norms.
fn norms_converge(x_norm: Option<f64>, second_norm: Option<f64>) -> bool
    ensures { result ≡ converges x_norm second_norm }
{
    match (x_norm, second_norm) {
        (Some(x), Some(second)) => second <= Multiplier::REFINEMENT_CONVERGED * x,
        _ => false,
    }
}

/// Whether the multipliers' errors are bounded, each by its second correction's magnitude: they are checked, and
/// `refinement_error` answers.
pub fn error_bounds(s: &Sheet) -> bool
    requires { length s.now.rho_lo.now ≡ length s.now.rho_hi.now }
    ensures { result ≡ error_bounds s.now.checked s.now.rho_hi.now s.now.rho_lo.now s.now.second.now }
{
    if s.checked == 0 {
        return false;
    }
    norms_converge(rho_norm(s.rho_hi, s.rho_lo), second_norm(s.second))
}
