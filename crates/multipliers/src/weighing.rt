//! What becomes of a row's multiplier.
ghost use Rattle.std.specs.Prelude.{◌≡◌, length, ℕ, ◌<◌};
ghost use Rattle.loops.specs.Listed.{listed};
ghost use Rattle.multipliers.specs.Lent.{lent_multiplier};
ghost use Rattle.multipliers.specs.Reads.{MultiplierRead};
ghost use Rattle.multipliers.specs.Multipliers.{needs_infinite_side, signed, spreads, weighed};

use cdouble::CDouble;
use double_bits::abs;
use sheet::Sheet;

/// A row's multiplier: dropped, dropped because it is within its error of zero, or kept.
#[derive(Clone, Copy)]
pub enum Multiplier {
    Dropped,
    Zeroed(CDouble),
    Kept(CDouble),
}

impl Multiplier {
    /// A correction of at most so much of the multipliers, in the max norm, is one of a refinement that converged: 2^-53.
    pub const REFINEMENT_CONVERGED: f64 = 1.110_223_024_625_156_5e-16;
}

/// The multiplier of a row of the basis inverse, by the direction in which the leaving variable leaves.
#[tactic(auto, unfolding(crate::specs::Multipliers::signed))]
fn signed(leaving_up: bool, rho: CDouble) -> CDouble
    ensures { result ≡ signed leaving_up rho }
{
    let y = if leaving_up { rho.neg() } else { rho };
    y.normalized()
}

/// Whether a multiplier of this value needs a side of its slack that is infinite.
fn needs_infinite_side(y_value: f64, min: f64, max: f64) -> bool
    ensures { result ≡ needs_infinite_side y_value min max }
{
    if y_value > 0.0 {
        max == f64::INFINITY
    } else {
        min == f64::NEG_INFINITY
    }
}

/// What becomes of the multiplier `y`, given its error, where errors are bounded, and its slack's bounds.
#[tactic(auto, unfolding(crate::specs::Multipliers::weighed))]
fn weighed(estimated: bool, error: f64, y: CDouble, min: f64, max: f64) -> Multiplier
    ensures { result ≡ weighed estimated error y min max }
{
    let y_value = y.value();
    if estimated & (abs(y_value) <= error) {
        Multiplier::Zeroed(y)
    } else if (y_value == 0.0) | needs_infinite_side(y_value, min, max) {
        Multiplier::Dropped
    } else {
        Multiplier::Kept(y)
    }
}

/// What becomes of the multiplier of the row `r`.
fn multiplier_at(s: &Sheet, estimated: bool, r: usize) -> Multiplier
    requires { MultiplierRead s.now r }
    ensures { result ≡ lent_multiplier s.now estimated r }
{
    let rho = CDouble {
        hi: s.rho_hi[r],
        lo: s.rho_lo[r],
    };
    let y = signed(s.leaving_up != 0, rho);
    let slack = s.structurals + r;
    weighed(estimated, abs(s.second[r]), y, s.mins[slack], s.maxs[slack])
}

/// What becomes of the multiplier of each row, written to a list with a place for each.
pub fn write_multipliers(s: &Sheet, estimated: bool, multipliers: &mut [Multiplier])
    requires { (r : ℕ) → r < length multipliers.old → MultiplierRead s.now r }
    ensures { multipliers.new ≡ listed (length multipliers.old) (lent_multiplier s.now estimated) }
{
    // Kept: `r` goes to several lists of the sheet too.
    for r in 0..multipliers.len() {
        multipliers[r] = multiplier_at(s, estimated, r);
    }
}

/// What a row's multiplier carries of the errors to its variables in basis, per unit of their entries.
#[tactic(auto, unfolding(crate::specs::Multipliers::spreads))]
pub fn spreads(estimated: bool, error: f64, m: Multiplier) -> Option<f64>
    ensures { result ≡ spreads estimated error m }
{
    match m {
        Multiplier::Zeroed(y) => {
            let distance = abs(y.value()) + error;
            (distance > 0.0).then_some(distance)
        }
        Multiplier::Dropped => None,
        Multiplier::Kept(_) => estimated.then_some(error),
    }
}
