//! The edge of a bound's band, as the Rust has it. The function takes every number and asks nothing of its caller.
ghost use Rattle.std.specs.Prelude.{◌≡◌, T};
ghost use Rattle.std.specs.Float.Ieee.{le};
ghost use Rattle.std.specs.Float.Ieee.Scale.{finite};
ghost use Rattle.cdouble.specs.Compensated.{plus_zero};
ghost use Rattle.tolerances.specs.BandEdge.{band_edge, IsBandEdge};

use adjacent::{next_down, next_up};
use double_bits::abs;

/// `bound` moved out by `tol`, above it or below, and back by a double where rounding took it too far. The Rust steps back in
/// a loop, which takes one step at most wherever it ends.
pub fn band_edge(bound: f64, tol: f64, up: bool) -> f64
    ensures { (result ≡ band_edge bound tol up) × (T (finite bound) → T (le plus_zero tol) → IsBandEdge bound tol up result) }
{
    let edge = if up { bound + tol } else { bound - tol };
    if abs(edge - bound) > tol {
        if up { next_down(edge) } else { next_up(edge) }
    } else {
        edge
    }
}
