//! The bounds of a variable, and its tolerances at them.
ghost use Rattle.std.specs.Prelude.{◌≡◌, ◌<◌, length};
ghost use Rattle.edges.specs.Model.{bound_at, tols_at};

use tolerances::BoundTols;

// Kept: facts such as these two stand in each contract: a lent sheet is unchecked, so no type of it can carry what the questions show.
/// The bound of `v` on this side.
pub fn bound_of(mins: &[f64], maxs: &[f64], v: usize, up: bool) -> f64
    requires { (v < length mins.now) × (v < length maxs.now) }
    ensures { result ≡ bound_at mins.now maxs.now v up }
{
    if up { maxs[v] } else { mins[v] }
}

/// The tolerances of `v`.
pub fn tolerances_of(low: &[f64], high: &[f64], v: usize) -> BoundTols
    requires { (v < length low.now) × (v < length high.now) }
    ensures { result ≡ tols_at low.now high.now v }
{
    BoundTols {
        lo: low[v],
        hi: high[v],
    }
}
