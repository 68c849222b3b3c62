//! The gap between the combined row's right side and its largest value, and what it is weighed against.
ghost use Rattle.std.specs.Prelude.{◌≡◌};
ghost use Rattle.judgement.specs.Gap.{finite_sum, gap_sum, weighed_apart, weighed_finite, weighed_plain};

use cdouble::{CDouble, add_up};
use double_bits::is_finite;
use walk::End;

/// The gap: a pair, none because a variable has no limit, or none because a number is not finite.
// Kept: no Option or Result: document 01 asks for an enum of these three cases, and the answer tells the two without a pair apart.
#[derive(Clone, Copy)]
pub enum GapSum {
    Finite(CDouble),
    Unlimited,
    Spoilt,
}

/// Whether the certificate holds, and what its gap must exceed, whether it does or not.
#[derive(Clone, Copy)]
pub struct Weight {
    pub holds: bool,
    pub allowance: f64,
}

/// A sum that has overflowed is no gap.
#[tactic(auto, unfolding(crate::specs::Gap::finite_sum))]
fn finite_sum(sum: CDouble) -> GapSum
    ensures { result ≡ finite_sum sum }
{
    if is_finite(sum.value()) {
        GapSum::Finite(sum)
    } else {
        GapSum::Spoilt
    }
}

/// The gap of a walk that ended so.
#[tactic(auto, unfolding(crate::specs::Gap::gap_sum))]
pub fn gap_sum(beta: CDouble, implied_max: CDouble, end: End) -> GapSum
    ensures { result ≡ gap_sum beta implied_max end }
{
    match end {
        End::Through if is_finite(beta.value()) => finite_sum(beta.add_scaled(implied_max, -1.0)),
        End::Unlimited => GapSum::Unlimited,
        End::Through | End::Spoilt => GapSum::Spoilt,
    }
}

/// The gap against the others' room alone.
#[tactic(auto, unfolding(crate::specs::Gap::weighed_plain))]
pub fn weighed_plain(gap: f64, others: f64) -> Weight
    ensures { result ≡ weighed_plain gap others }
{
    Weight {
        holds: gap > others,
        allowance: others,
    }
}

/// The gap less the leaving room, rounded down, against the others' room less the cut, rounded up.
#[tactic(auto, unfolding(crate::specs::Gap::weighed_apart))]
fn weighed_apart(sum: CDouble, gap: f64, others: f64, leaving_room: f64, cut: f64) -> Weight
    ensures { result ≡ weighed_apart sum gap others leaving_room cut }
{
    let rest = add_up(others, -cut);
    let excess = sum.add(-leaving_room);
    Weight {
        holds: gap > others && excess.rounded(false) > rest,
        allowance: add_up(rest, leaving_room),
    }
}

/// Whether a finite gap is above every room and the round-off of its sums, and what it is weighed against.
pub fn weighed_finite(sum: CDouble, gap: f64, others: f64, leaving_room: f64, cut: f64) -> Weight
    ensures { result ≡ weighed_finite sum gap others leaving_room cut }
{
    if leaving_room > cut {
        weighed_apart(sum, gap, others, leaving_room, cut)
    } else {
        weighed_plain(gap, others)
    }
}
