//! One row, times its multiplier, added to the errors and to the sums.
ghost use Rattle.std.specs.Prelude.{◌≡◌, get_or, length, set, ◌+◌, ◌<◌, ◌^◌};
ghost use Rattle.std.specs.Float.{nan};
ghost use Rattle.doubles.specs.Compare.{absolute};
ghost use Rattle.cdouble.specs.Compensated.{◌⊕◌, ◌⊗◌};
ghost use Rattle.certificate.specs.Added.{after_errors, spread_into, summed};
ghost use Rattle.certificate.specs.AddedReads.{ErrorsFit};
ghost use Rattle.certificate.specs.Everywhere.{everyone};

use cdouble::CDouble;
use double_bits::abs;
use multipliers::Multiplier;

/// The right side of the combined row, the magnitude and count of all terms so far, how many rows are combined, and how
/// many multipliers that are not 0 were taken as zero.
#[derive(Clone, Copy)]
pub struct Sums {
    pub beta: CDouble,
    pub magnitude: f64,
    pub terms: usize,
    pub rows: usize,
    pub zeroed: usize,
}

/// One entry's share of an error.
fn add_error(distance: f64, v: usize, a: f64, errors: &mut [f64])
    requires { v < length errors.old }
    ensures { errors.new ≡ set errors.old v (get_or errors.old v nan ⊕ distance ⊗ absolute a) }
{
    errors[v] += distance * abs(a);
}

/// A row's shares, entry by entry, for each of `count` variables: which of them are in the basis is asked once for each, by `keep_basic`, since a
/// processor seldom foresees it.
fn add_errors(count: usize, distance: f64, columns: &[usize], entries: &[f64], errors: &mut [f64])
    requires { ErrorsFit count columns.now entries.now errors.old }
    ensures { errors.new ≡ after_errors distance (everyone count) columns.now entries.now (length columns.now) errors.old }
{
    for (v, a) in columns.iter().zip(entries) {
        add_error(distance, *v, *a, errors);
    }
}

/// A row into the errors, if it carries any.
#[tactic(auto, unfolding(crate::specs::Added::spread_into))]
pub fn spread_row(
    count: usize,
    spread: Option<f64>,
    columns: &[usize],
    entries: &[f64],
    errors: &mut [f64],
)
    requires { ErrorsFit count columns.now entries.now errors.old }
    ensures { errors.new ≡ spread_into spread (everyone count) columns.now entries.now errors.old }
{
    if let Some(distance) = spread {
        add_errors(count, distance, columns, entries, errors);
    }
}

/// A row of so many entries into the sums.
#[tactic(auto, unfolding(crate::specs::Added::summed))]
pub fn summed(m: Multiplier, right_side: f64, n: usize, c: Sums) -> Sums
    requires { (c.terms + 1 + n < 2 ^ 64) × (c.rows + 1 < 2 ^ 64) × (c.zeroed + 1 < 2 ^ 64) }
    ensures { result ≡ summed m right_side n c }
{
    match m {
        Multiplier::Zeroed(y) => {
            if y.value() == 0.0 {
                c
            } else {
                Sums {
                    zeroed: c.zeroed + 1,
                    ..c
                }
            }
        }
        Multiplier::Dropped => c,
        Multiplier::Kept(y) => Sums {
            beta: c.beta.add_scaled(y, right_side),
            magnitude: c.magnitude + abs(y.value() * right_side),
            terms: c.terms + 1 + n,
            rows: c.rows + 1,
            ..c
        },
    }
}
