//! A kept row, times its multiplier, added to the coefficients.
ghost use Rattle.std.specs.Prelude.{◌≡◌, length};
ghost use Rattle.certificate.specs.Added.{after_terms, kept_into, with_term};
ghost use Rattle.sheet.specs.Outputs.{SameSlices, lent_lists};
ghost use Rattle.certificate.specs.AddedReads.{RowFits, TermFits};

use cdouble::CDouble;
use double_bits::abs;
use multipliers::Multiplier;
use sheet::Lists;

/// One entry of a kept row, `a` of the variable `v`.
fn add_term(y: CDouble, v: usize, a: f64, l: &mut Lists)
    requires { TermFits v (lent_lists l.old) }
    ensures same_slices { SameSlices l.old l.new }
    ensures value { lent_lists l.new ≡ with_term y v a (lent_lists l.old) }
{
    let before = CDouble {
        hi: l.high[v],
        lo: l.low[v],
    };
    let coeff = before.add_scaled(y, a);
    l.high[v] = coeff.hi;
    l.low[v] = coeff.lo;
    l.magnitudes[v] += abs(y.value() * a);
    l.terms[v] += 1;
}

/// A kept row, entry by entry.
fn add_terms(count: usize, y: CDouble, columns: &[usize], entries: &[f64], l: &mut Lists)
    requires { RowFits count columns.now entries.now (lent_lists l.old) }
    ensures same_slices { SameSlices l.old l.new }
    ensures value { lent_lists l.new ≡ after_terms y columns.now entries.now (length columns.now) (lent_lists l.old) }
{
    for (v, a) in columns.iter().zip(entries) {
        add_term(y, *v, *a, l);
    }
}

/// A row into the coefficients, if it is kept.
#[tactic(auto, unfolding(crate::specs::Added::kept_into))]
pub fn keep_row(count: usize, m: Multiplier, columns: &[usize], entries: &[f64], l: &mut Lists)
    requires { RowFits count columns.now entries.now (lent_lists l.old) }
    ensures same_slices { SameSlices l.old l.new }
    ensures value { lent_lists l.new ≡ kept_into m columns.now entries.now (lent_lists l.old) }
{
    if let Multiplier::Kept(y) = m {
        add_terms(count, y, columns, entries, l);
    }
}
