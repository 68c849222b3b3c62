//! The judgement of a walk over the variables, and of a certificate.
ghost use Rattle.std.specs.Prelude.{◌≡◌};
ghost use Rattle.edges.specs.Model.{lent_model};
ghost use Rattle.certificate.specs.Certificate.{certificate};
ghost use Rattle.sheet.specs.Outputs.{lent_lists};
ghost use Rattle.walk.specs.Walk.{walk_over};
ghost use Rattle.judgement.specs.Judgement.{judgement};
ghost use Rattle.judgement.specs.Reads.{JudgeFits};

use crate::cut::cut_at;
use crate::weighed::{GapSum, gap_sum, weighed_finite, weighed_plain};
use cdouble::{add_up, compensated_error};
use certificate::Sums;
use questions::Marks;
use sheet::{Lists, Sheet};
use walk::{Walked, started, walk_over};

/// The judgement's numbers, and how many rows the certificate combines.
#[repr(C)]
#[derive(Clone, Copy)]
pub struct Proof {
    pub holds: bool,
    pub gap: f64,
    pub allowance: f64,
    pub cut: f64,
    pub zero_within_error: usize,
    pub multipliers_zeroed: usize,
    pub rows: usize,
}

/// The walk over all of `count` variables.
fn walk_all(
    s: &Sheet,
    marks: &Marks,
    count: usize,
    estimated: bool,
    leaving: usize,
    row_magnitudes: &[f64],
    c: Sums,
    l: &Lists,
    errors: &[f64],
) -> Walked
    requires { JudgeFits (lent_model s.now marks.now) row_magnitudes.now count leaving (lent_lists l.now) errors.now c }
    ensures { result ≡ walk_over (lent_model s.now marks.now) leaving estimated (certificate (lent_lists l.now) errors.now c) count }
{
    let before = started(c);
    walk_over(
        s,
        marks,
        estimated,
        leaving,
        row_magnitudes,
        l,
        errors,
        0,
        count,
        before,
    )
}

/// The judgement of a certificate over `count` variables.
#[tactic(auto, unfolding(crate::specs::Judgement::judged, crate::specs::Judgement::judgement))]
pub fn judge(
    s: &Sheet,
    marks: &Marks,
    count: usize,
    estimated: bool,
    leaving: usize,
    row_magnitudes: &[f64],
    c: Sums,
    l: &Lists,
    errors: &[f64],
) -> Proof
    requires { JudgeFits (lent_model s.now marks.now) row_magnitudes.now count leaving (lent_lists l.now) errors.now c }
    ensures { result ≡ judgement (lent_model s.now marks.now) leaving estimated count (certificate (lent_lists l.now) errors.now c) }
{
    let walked = walk_all(
        s,
        marks,
        count,
        estimated,
        leaving,
        row_magnitudes,
        c,
        l,
        errors,
    );
    let w = walked.walk;
    let sums = compensated_error(w.terms, w.longest, w.magnitude);
    let others = add_up(w.room, sums);
    let (gap, cut, weight) = match gap_sum(c.beta, w.implied_max, walked.end) {
        GapSum::Finite(sum) => {
            let gap = sum.value();
            let cut = cut_at(s, leaving, w.leaving_edge, sums, gap);
            (
                gap,
                cut,
                weighed_finite(sum, gap, others, w.leaving_room, cut),
            )
        }
        GapSum::Unlimited => (
            f64::NEG_INFINITY,
            0.0,
            weighed_plain(f64::NEG_INFINITY, others),
        ),
        GapSum::Spoilt => (f64::NAN, 0.0, weighed_plain(f64::NAN, others)),
    };
    Proof {
        holds: weight.holds,
        gap,
        allowance: weight.allowance,
        cut,
        zero_within_error: w.zero_within_error,
        multipliers_zeroed: c.zeroed,
        rows: c.rows,
    }
}
