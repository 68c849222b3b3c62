//! What a coefficient makes of the state of the walk.
ghost use Rattle.std.specs.Prelude.{◌≡◌};
ghost use Rattle.walk.specs.States.{counted, counted_as_zero, error_of_zero};
ghost use Rattle.walk.specs.StateReads.{Small};

use cdouble::{CDouble, add_up, compensated_error, distance_up};
use double_bits::abs;
use outward_by_errors::mul_up;

/// What the certificate has for a variable: its coefficient, the magnitude and count of the terms it was summed from,
/// and how far the multipliers' errors may carry it.
#[derive(Clone, Copy)]
pub struct Coefficient {
    pub p: CDouble,
    pub magnitude: f64,
    pub terms: usize,
    pub error: f64,
}

/// The sums and counts of the walk so far.
#[derive(Clone, Copy)]
pub struct Walk {
    /// the magnitude and count of all terms
    pub magnitude: f64,
    pub terms: usize,
    /// the largest value of the combined row
    pub implied_max: CDouble,
    /// how far the room of the variables but the leaving one carries it, and the leaving one's room, which ends at its edge
    pub room: f64,
    pub leaving_room: f64,
    pub leaving_edge: f64,
    /// how many coefficients counted as zero
    pub zero_within_error: usize,
    /// the most terms that a sum of the gap has, and how many variables count at a bound
    pub longest: usize,
    pub bounded: usize,
}

/// How the walk ended: after all variables, at a number that is not finite, or at a variable that has no limit.
#[derive(Clone, Copy)]
pub enum End {
    Through,
    Spoilt,
    Unlimited,
}

/// The sums of a walk, and how it ended.
// Kept: no Result, since the sums and counts stay as they are then and each end is weighed with them (document 01).
#[derive(Clone, Copy)]
pub struct Walked {
    pub walk: Walk,
    pub end: End,
}

/// How far from zero a coefficient can come out where it is zero for the exact multipliers.
#[tactic(auto, unfolding(crate::specs::States::error_of_zero))]
pub fn error_of_zero(c: Coefficient) -> f64
    ensures { result ≡ error_of_zero c }
{
    c.error + compensated_error(c.terms, c.terms, c.magnitude)
}

/// A coefficient that counts at its variable's bound, the variable's room ending at `end`. The room of the leaving
/// variable is kept apart from the others'.
#[tactic(auto, unfolding(crate::specs::States::counted))]
pub fn counted(leaving: bool, c: Coefficient, bound: f64, end: f64, w: Walk) -> Walk
    requires { Small w }
    ensures { result ≡ counted leaving c bound end w }
{
    let width = distance_up(end, bound);
    let reach = mul_up(c.p.abs_up(), width);
    let bounded = w.bounded + 1;
    let next = Walk {
        magnitude: w.magnitude + c.magnitude * (abs(bound) + width),
        terms: w.terms + 1,
        implied_max: w.implied_max.add_scaled(c.p, bound),
        longest: w.longest.max(c.terms).max(bounded),
        bounded,
        ..w
    };
    if leaving {
        Walk {
            leaving_room: reach,
            leaving_edge: end,
            ..next
        }
    } else {
        Walk {
            room: add_up(w.room, reach),
            ..next
        }
    }
}

/// A coefficient that counts as zero.
#[tactic(auto, unfolding(crate::specs::States::counted_as_zero))]
pub fn counted_as_zero(w: Walk) -> Walk
    requires { Small w }
    ensures { result ≡ counted_as_zero w }
{
    Walk {
        zero_within_error: w.zero_within_error + 1,
        ..w
    }
}
