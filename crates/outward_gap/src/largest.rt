//! The largest value that the combined row can take within the ranges, rounded up.

ghost use Rattle.std.specs.Prelude.{◌≡◌, length};
ghost use Rattle.gaps.specs.Steps.{limited, skipped, term, unlimited};
ghost use Rattle.outward_gap.specs.Lent.{ranges_lent};
ghost use Rattle.outward_gap.specs.LargestWalk.{at, largest_or_infinite, stepped};

use crate::Ends;
use double_bits::is_finite;
use outward_by_errors::{larger_product, largest_product, rounded_sum};

/// Whether both ends of a coefficient are 0.
fn skipped(l: f64, u: f64) -> bool
    ensures { result ≡ skipped l u }
{
    (l == 0.0) & (u == 0.0)
}

/// Whether a coefficient between `l` and `u` may be above 0 where the high edge is infinite, or below it where the low
/// edge is.
fn unlimited(l: f64, u: f64, low: f64, high: f64) -> bool
    ensures { result ≡ unlimited l u low high }
{
    let up = (u > 0.0) & (high == f64::INFINITY);
    let down = (l < 0.0) & (low == f64::NEG_INFINITY);
    up | down
}

/// Whether both ends are finite, and the variable's term has a limit.
#[tactic(auto, unfolding(gaps::specs::Steps::limited))]
fn limited(l: f64, u: f64, low: f64, high: f64) -> bool
    ensures { result ≡ limited l u low high }
{
    is_finite(l) & is_finite(u) & (skipped(l, u) | !unlimited(l, u, low, high))
}

/// The largest of both ends times the finite edges.
#[tactic(auto, unfolding(gaps::specs::Steps::term))]
fn term(l: f64, u: f64, low: f64, high: f64) -> f64
    ensures { result ≡ term l u low high }
{
    if !is_finite(low) {
        return larger_product(l, u, high);
    }
    if !is_finite(high) {
        return larger_product(l, u, low);
    }
    largest_product(l, u, low, high)
}

/// The sum after a variable whose coefficient lies between `l` and `u` and which goes from `low` to `high`, if it has a limit.
#[tactic(auto, using(crate::proofs::LargestWalk::step_skips, crate::proofs::LargestWalk::step_ends, crate::proofs::LargestWalk::step_counts))]
fn step(l: f64, u: f64, low: f64, high: f64, sum: f64) -> Option<f64>
    ensures { result ≡ stepped l u low high sum }
{
    if skipped(l, u) {
        return Some(sum);
    }
    if !limited(l, u, low, high) {
        return None;
    }
    Some(rounded_sum::<true>(sum, term(l, u, low, high)))
}

/// `before` and the largest values of a window of variables, whose coefficients lie between `lower` and `upper`. The walk ends at
/// the first variable that has no limit, with +infinity.
#[tactic(auto, using(crate::proofs::LargestWalk::all_walked))]
pub fn largest_value(lower: &[f64], upper: &[f64], ends: &Ends, before: f64) -> f64
    requires { (length upper.now ≡ length lower.now) × (length ends.now.low.now ≡ length lower.now) × (length ends.now.high.now ≡ length lower.now) }
    ensures { result ≡ largest_or_infinite before (at lower.now) (at upper.now) (ranges_lent ends.now) (length lower.now) }
{
    let mut sum = before;
    // Kept: `v` goes to four lists.
    for v in 0..lower.len() {
        let Some(more) = step(lower[v], upper[v], ends.low[v], ends.high[v], sum) else {
            return f64::INFINITY;
        };
        sum = more;
    }
    sum
}
