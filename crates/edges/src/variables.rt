//! The edges of a variable.
ghost use Rattle.std.specs.Prelude.{◌≡◌};
ghost use Rattle.edges.specs.Model.{lent_model};
ghost use Rattle.edges.specs.Edges.{edge};
ghost use Rattle.edges.specs.RoomReads.{Known, Readable};

use crate::{bound_of, holds_on_bounds, tolerances_of, widening_room};
use double_bits::is_finite;
use questions::Marks;
use sheet::Sheet;
use tolerances::band_edge;

/// The edge of `v` on this side.
pub fn edge(
    s: &Sheet,
    marks: &Marks,
    leaving: usize,
    row_magnitudes: &[f64],
    v: usize,
    up: bool,
) -> f64
    requires readable { Readable (lent_model s.now marks.now) v }
    requires known { Known (lent_model s.now marks.now) row_magnitudes.now v }
    ensures { result ≡ edge (lent_model s.now marks.now) leaving v up }
{
    let bound = bound_of(s.mins, s.maxs, v, up);
    if !is_finite(bound) {
        return bound;
    }
    if v == leaving {
        let tols = tolerances_of(s.low_tolerances, s.high_tolerances, v);
        return band_edge(bound, tols.toward(up), up);
    }
    if holds_on_bounds(s.structurals, s.integer, s.mins, s.maxs, v) {
        return bound;
    }
    let room = widening_room(s, marks, row_magnitudes, v, up);
    band_edge(bound, room, up)
}
