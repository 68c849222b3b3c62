//! Both ends of each coefficient of the combined row: the kept rows, each times its multiplier, added up with every product and
//! sum rounded outward. The coefficients are those of a window of variables, one for each place of the lists.

ghost use Rattle.std.specs.Prelude.{◌≡◌, ℕ, length, replicate};
ghost use Rattle.doubles.specs.Directed.{product_down, product_up, sum_down, sum_up};
ghost use Rattle.cdouble.specs.Compensated.{plus_zero};
ghost use Rattle.outward_by_errors.specs.Halved.{Halved};
ghost use Rattle.outward_gap.specs.Lent.{kept_in, rows_lent};
ghost use Rattle.outward_gap.specs.Reads.{RowsFit};
ghost use Rattle.outward_gap.specs.Ends.{added, ends_of, with_entries, with_rows_entries};

use crate::Rows;
use cdouble::CDouble;
use multipliers::Multiplier;
use outward_by_errors::{Factor, factor_of, with_scaled};

/// One entry of a kept row, `a` of the variable `v`, if the window has it.
fn add_term(first: usize, f: Factor, v: usize, a: f64, lower: &mut [f64], upper: &mut [f64])
    requires { Halved f × (length upper.old ≡ length lower.old) }
    ensures { (lower.new ≡ added sum_down product_down first f.y v a lower.old) × (upper.new ≡ added sum_up product_up first f.y v a upper.old) }
{
    if first <= v && v - first < lower.len() {
        let ends = with_scaled(f, a, lower[v - first], upper[v - first]);
        lower[v - first] = ends.down;
        upper[v - first] = ends.up;
    }
}

/// A kept row, entry by entry; what is reckoned of its multiplier alone, once.
// Kept: the loop of certificate::add_terms (and of certificate::add_errors) again, with keep_row: what is done with an entry differs, and a trait of the step with its law is longer than the loops.
fn add_terms(
    first: usize,
    y: CDouble,
    columns: &[usize],
    entries: &[f64],
    lower: &mut [f64],
    upper: &mut [f64],
)
    requires { (length entries.now ≡ length columns.now) × (length upper.old ≡ length lower.old) }
    ensures { (lower.new ≡ with_entries sum_down product_down first y columns.now entries.now (length columns.now) lower.old)
        × (upper.new ≡ with_entries sum_up product_up first y columns.now entries.now (length columns.now) upper.old) }
{
    let f = factor_of(y);
    for (v, a) in columns.iter().zip(entries) {
        add_term(first, f, *v, *a, lower, upper);
    }
}

/// A row, if it is kept.
fn keep_row(
    first: usize,
    m: Multiplier,
    columns: &[usize],
    entries: &[f64],
    lower: &mut [f64],
    upper: &mut [f64],
)
    requires { (length entries.now ≡ length columns.now) × (length upper.old ≡ length lower.old) }
    ensures { (lower.new ≡ with_rows_entries sum_down product_down first m columns.now entries.now lower.old)
        × (upper.new ≡ with_rows_entries sum_up product_up first m columns.now entries.now upper.old) }
{
    if let Multiplier::Kept(y) = m {
        add_terms(first, y, columns, entries, lower, upper);
    }
}

/// The rows in ascending order into the coefficients of the variables from `first` on, which are 0 before.
pub fn add_rows(
    rows: &Rows,
    multipliers: &[Multiplier],
    first: usize,
    lower: &mut [f64],
    upper: &mut [f64],
)
    requires rows_fit { RowsFit rows.now multipliers.now }
    requires cleared { (lower.old ≡ replicate (length lower.old) plus_zero) × (upper.old ≡ replicate (length lower.old) plus_zero) }
    ensures { (variables : ℕ) → (let kept = kept_in multipliers.now in let m = rows_lent rows.now variables in
        (lower.new ≡ ends_of sum_down product_down kept m first (length lower.old) m.count) × (upper.new ≡ ends_of sum_up product_up kept m first (length lower.old) m.count)) }
{
    // Kept: `r` goes to several lists at once.
    for r in 0..multipliers.len() {
        let start = rows.starts[r];
        let end = rows.starts[r + 1];
        keep_row(
            first,
            multipliers[r],
            &rows.columns[start..end],
            &rows.entries[start..end],
            lower,
            upper,
        );
    }
}
