//! Questions over all places of one list, or of two of one length.
ghost use Rattle.std.specs.Prelude.{◌≡◌, length};
ghost use Rattle.loops.specs.Places.{all_below};
ghost use Rattle.questions.specs.Questions.{all_finite, all_plain, bounds_fine, leaving_row_fine, plain, product_finite_at, range_fine, tolerances_fine};

use double_bits::{INFINITY, is_finite};
use std::num::f64_to_bits_with_nan;

/// Whether every number is finite. All are asked, with no way out before the last, and so the compiler asks several at a time.
pub fn all_finite(xs: &[f64]) -> bool
    ensures { result ≡ all_finite xs.now }
{
    let mut fine = true;
    for x in xs {
        fine = fine & is_finite(*x);
    }
    fine
}

/// Whether `x` is finite with its sign bit clear, which is a pattern below the infinity's: a set sign bit and a NaN lie above it.
fn is_plain(x: f64) -> bool
    ensures { result ≡ plain x }
{
    f64_to_bits_with_nan(x) < INFINITY
}

/// Whether every number is.
fn all_plain(xs: &[f64]) -> bool
    ensures { result ≡ all_plain xs.now }
{
    let mut fine = true;
    for x in xs {
        fine = fine & is_plain(*x);
    }
    fine
}

/// Whether `x` times every number is finite.
fn products_finite(x: f64, ys: &[f64]) -> bool
    ensures { result ≡ all_below (length ys.now) (product_finite_at x ys.now) }
{
    ys.iter().all(|y| is_finite(x * *y))
}

/// The eighth question.
pub fn tolerances_fine(feasibility: f64, scales: &[f64], low: &[f64], high: &[f64]) -> bool
    ensures { result ≡ tolerances_fine feasibility scales.now low.now high.now }
{
    all_plain(low)
        & all_plain(high)
        & is_plain(feasibility)
        & all_plain(scales)
        & products_finite(feasibility, scales)
}

/// Whether `min` and `max` are the bounds of a range with a number in it.
fn range_fine(min: f64, max: f64) -> bool
    ensures { result ≡ range_fine min max }
{
    (min <= max) & (min != f64::INFINITY) & (max != f64::NEG_INFINITY)
}

/// The seventh question.
pub fn bounds_fine(mins: &[f64], maxs: &[f64]) -> bool
    requires { length maxs.now ≡ length mins.now }
    ensures { result ≡ bounds_fine mins.now maxs.now }
{
    mins.iter()
        .zip(maxs)
        .all(|(min, max)| range_fine(*min, *max))
}

/// The twelfth question.
pub fn leaving_row_fine(rows: usize, leaving_row: usize) -> bool
    ensures { result ≡ leaving_row_fine rows leaving_row }
{
    leaving_row < rows
}
