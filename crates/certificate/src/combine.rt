//! The rows added up, each times its multiplier, into a coefficient for each variable.
ghost use Rattle.std.specs.Prelude.{◌≡◌, cond, length, replicate, take, ◌+◌, ◌≤◌};
ghost use Rattle.cdouble.specs.Compensated.{plus_zero};
ghost use Rattle.certificate.specs.Added.{no_sums};
ghost use Rattle.sheet.specs.Outputs.{SameSlices, lent_lists};
ghost use Rattle.certificate.specs.AddedReads.{Long};
ghost use Rattle.certificate.specs.System.{lent_system};
ghost use Rattle.certificate.specs.Certificate.{after_rows, certificate, combined, empty, lists_over, over, with_row, written};
ghost use Rattle.certificate.specs.Everywhere.{basic_only, everywhere, if_basic};
ghost use Rattle.certificate.specs.Reads.{CertificateFits, RowGoesOn, RowsGoOn, Weighed};

use crate::{Sums, keep_row, spread_row, summed};
use cdouble::CDouble;
use double_bits::abs;
use multipliers::{Multiplier, spreads};
use sheet::{Lists, Sheet};

/// The row `r`, its errors added for every variable.
fn add_row(
    s: &Sheet,
    count: usize,
    estimated: bool,
    multipliers: &[Multiplier],
    l: &mut Lists,
    errors: &mut [f64],
    r: usize,
    c: Sums,
) -> Sums
    requires weighed { Weighed (lent_system s.now estimated) (r + 1) multipliers.now }
    requires goes_on { RowGoesOn (everywhere count (lent_system s.now estimated)) r count (certificate (lent_lists l.old) errors.old c) }
    ensures same_slices { SameSlices l.old l.new }
    ensures value { certificate (lent_lists l.new) errors.new result ≡ with_row (everywhere count (lent_system s.now estimated)) r (certificate (lent_lists l.old) errors.old c) }
{
    let m = multipliers[r];
    let spread = spreads(estimated, abs(s.second[r]), m);
    let start = s.starts[r];
    let end = s.starts[r + 1];
    let columns = &s.columns[start..end];
    let entries = &s.entries[start..end];
    keep_row(count, m, columns, entries, l);
    spread_row(count, spread, columns, entries, errors);
    summed(m, s.right_sides[r], columns.len(), c)
}

/// The rows in ascending order.
fn add_rows(
    s: &Sheet,
    count: usize,
    estimated: bool,
    multipliers: &[Multiplier],
    l: &mut Lists,
    errors: &mut [f64],
) -> Sums
    requires weighed { Weighed (lent_system s.now estimated) s.now.rows multipliers.now }
    requires go_on { RowsGoOn (everywhere count (lent_system s.now estimated)) s.now.rows count (lent_lists l.old) errors.old }
    ensures same_slices { SameSlices l.old l.new }
    ensures value { certificate (lent_lists l.new) errors.new result ≡ after_rows (everywhere count (lent_system s.now estimated)) s.now.rows (certificate (lent_lists l.old) errors.old no_sums) }
{
    let mut c = Sums {
        beta: CDouble { hi: 0.0, lo: 0.0 },
        magnitude: 0.0,
        terms: 0,
        rows: 0,
        zeroed: 0,
    };
    // Kept: `r` goes to several lists of the sheet at once.
    for r in 0..s.rows {
        c = add_row(s, count, estimated, multipliers, l, errors, r, c);
    }
    c
}

/// The first `count` places made `zero`.
fn clear<T: Copy>(count: usize, xs: &mut [T], zero: T)
    requires in_list { count ≤ length xs.old }
    requires infallible { T.is_infallible zero }
    requires exact { (y : T) → T.is_clone zero y → y ≡ zero }
    ensures { xs.new ≡ over count (replicate count zero) xs.old }
{
    xs[..count].fill(zero);
}

/// Each list cleared.
fn clear_lists(count: usize, l: &mut Lists)
    requires { Long count (lent_lists l.old) }
    ensures same_slices { SameSlices l.old l.new }
    ensures value { lent_lists l.new ≡ lists_over count (empty count).lists_of (lent_lists l.old) }
{
    clear(count, l.high, 0.0);
    clear(count, l.low, 0.0);
    clear(count, l.magnitudes, 0.0);
    clear(count, l.terms, 0);
}

/// The errors cleared, if there are error bounds.
fn clear_errors(estimated: bool, count: usize, errors: &mut [f64])
    requires { count ≤ length errors.old }
    ensures { errors.new ≡ cond estimated (over count (replicate count plus_zero) errors.old) errors.old }
{
    if estimated {
        clear(count, errors, 0.0);
    }
}

/// The error of a variable with this flag: 0 if it is not in the basis.
fn if_basic(flag: u8, error: f64) -> f64
    ensures { result ≡ if_basic flag error }
{
    if flag != 0 { error } else { 0.0 }
}

/// The errors of variables that are not in the basis made 0.
fn keep_basic(basic: &[u8], errors: &mut [f64])
    ensures { errors.new ≡ basic_only basic.now errors.old }
{
    // Kept: `v` goes to both lists. A sheet of no row may have fewer flags, and then nothing was added.
    for v in 0..basic.len().min(errors.len()) {
        errors[v] = if_basic(basic[v], errors[v]);
    }
}

/// The first `count` errors, if there are error bounds, with those of variables that are not in the basis made 0.
fn keep_basic_errors(estimated: bool, count: usize, basic: &[u8], errors: &mut [f64])
    requires { count ≤ length errors.old }
    ensures { errors.new ≡ cond estimated (over count (basic_only basic.now (take count errors.old)) errors.old) errors.old }
{
    if estimated {
        keep_basic(basic, &mut errors[..count]);
    }
}

// Kept: `estimated` is apart from the sheet, from which it is worked out once; a struct of both would be taken apart in each function.
/// The certificate of the sheet's rows, each with its multiplier, over `count` variables, its lists written to the first `count` places.
pub fn certificate(
    s: &Sheet,
    count: usize,
    estimated: bool,
    multipliers: &[Multiplier],
    l: &mut Lists,
    errors: &mut [f64],
) -> Sums
    requires weighed { Weighed (lent_system s.now estimated) s.now.rows multipliers.now }
    requires fits { CertificateFits (lent_system s.now estimated) s.now.rows count (lent_lists l.old) errors.old }
    ensures same_slices { SameSlices l.old l.new }
    ensures value { certificate (lent_lists l.new) errors.new result ≡ written estimated count (combined (lent_system s.now estimated) s.now.rows count) (lent_lists l.old) errors.old }
{
    clear_lists(count, l);
    clear_errors(estimated, count, errors);
    let c = add_rows(s, count, estimated, multipliers, l, errors);
    keep_basic_errors(estimated, count, s.basic, errors);
    c
}
