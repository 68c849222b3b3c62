//! The steps of the walk.
ghost use Rattle.std.specs.Prelude.{◌≡◌, ◌+◌, ◌-◌};
ghost use Rattle.edges.specs.Model.{lent_model};
ghost use Rattle.sheet.specs.Outputs.{lent_lists};
ghost use Rattle.certificate.specs.Reads.{Lent};
ghost use Rattle.walk.specs.Step.{coefficient_at};
ghost use Rattle.walk.specs.Walk.{started, walk_from};
ghost use Rattle.walk.specs.Reads.{WalkFits};

use crate::states::{counted, counted_as_zero, error_of_zero};
use crate::{Coefficient, End, Walk, Walked};
use cdouble::CDouble;
use certificate::Sums;
use double_bits::{abs, is_finite};
use edges::{bound_of, edge};
use questions::Marks;
use sheet::{Lists, Sheet};

/// The state before any variable.
pub fn started(sums: Sums) -> Walk
    ensures { result ≡ started sums }
{
    Walk {
        magnitude: sums.magnitude,
        terms: sums.terms,
        implied_max: CDouble { hi: 0.0, lo: 0.0 },
        room: 0.0,
        leaving_room: 0.0,
        leaving_edge: 0.0,
        zero_within_error: 0,
        longest: sums.rows,
        bounded: 0,
    }
}

/// What the certificate has for the variable `v`.
fn coefficient_at(estimated: bool, l: &Lists, errors: &[f64], v: usize) -> Coefficient
    requires { Lent (v + 1) (lent_lists l.now) errors.now }
    ensures { result ≡ coefficient_at estimated (lent_lists l.now) errors.now v }
{
    Coefficient {
        p: CDouble {
            hi: l.high[v],
            lo: l.low[v],
        },
        magnitude: l.magnitudes[v],
        terms: l.terms[v] as usize,
        error: if estimated { errors[v] } else { 0.0 },
    }
}

/// The walk over the variables from `first` on that are below `last`, on the state `before`.
pub fn walk_over(
    s: &Sheet,
    marks: &Marks,
    estimated: bool,
    leaving: usize,
    row_magnitudes: &[f64],
    l: &Lists,
    errors: &[f64],
    first: usize,
    last: usize,
    before: Walk,
) -> Walked
    requires { WalkFits (lent_model s.now marks.now) row_magnitudes.now first last (lent_lists l.now) errors.now before }
    ensures { result ≡ walk_from (lent_model s.now marks.now) leaving estimated (lent_lists l.now) errors.now first (last - first) before }
{
    let mut w = before;
    let mut variables = first..last;
    // Kept: a labelled loop, since document 01 asks for one that yields how the walk ended, and a `for` yields nothing.
    let end = 'walk: loop {
        let Some(v) = variables.next() else {
            break 'walk End::Through;
        };
        let c = coefficient_at(estimated, l, errors, v);
        let p = c.p.value();
        if p == 0.0 {
            continue 'walk;
        }
        if !(is_finite(p) & is_finite(c.magnitude)) {
            break 'walk End::Spoilt;
        }
        let up = p > 0.0;
        let bound = bound_of(s.mins, s.maxs, v, up);
        if !is_finite(bound) {
            let error = error_of_zero(c);
            if !is_finite(error) {
                break 'walk End::Spoilt;
            }
            if abs(p) <= error {
                w = counted_as_zero(w);
                continue 'walk;
            }
            break 'walk End::Unlimited;
        }
        let end = edge(s, marks, leaving, row_magnitudes, v, up);
        w = counted(v == leaving, c, bound, end, w);
    };
    Walked { walk: w, end }
}
