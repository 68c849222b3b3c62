//! Both edges of a variable at once: a slack's room is worked out one time for the two.
ghost use Rattle.std.specs.Prelude.{◌≡◌, cond, false, true};
ghost use Rattle.std.specs.Float.Ieee.Scale.{finite};
ghost use Rattle.tolerances.specs.BandEdge.{band_edge};
ghost use Rattle.edges.specs.Edges.{edge};
ghost use Rattle.edges.specs.Model.{lent_model};
ghost use Rattle.edges.specs.RoomReads.{Known, Readable};

use crate::{edge, holds_on_bounds, widening_rooms};
use double_bits::is_finite;
use questions::Marks;
use sheet::Sheet;
use tolerances::band_edge;

/// The ends of a variable's range.
#[derive(Clone, Copy)]
pub struct Sides {
    pub low: f64,
    pub high: f64,
}

/// The bound moved out by its room; an infinite one stays.
fn moved(bound: f64, room: f64, up: bool) -> f64
    ensures { result ≡ cond (finite bound) (band_edge bound room up) bound }
{
    if is_finite(bound) {
        band_edge(bound, room, up)
    } else {
        bound
    }
}

/// The low and the high edge of `v`.
#[tactic(auto, using(crate::proofs::Pairs::held_edge, crate::proofs::Pairs::moved_edge))]
pub fn both_edges(
    s: &Sheet,
    marks: &Marks,
    leaving: usize,
    row_magnitudes: &[f64],
    v: usize,
) -> Sides
    requires readable { Readable (lent_model s.now marks.now) v }
    requires known { Known (lent_model s.now marks.now) row_magnitudes.now v }
    ensures { (let m = lent_model s.now marks.now in (result.low ≡ edge m leaving v false) × (result.high ≡ edge m leaving v true)) }
{
    if v == leaving {
        return Sides {
            low: edge(s, marks, leaving, row_magnitudes, v, false),
            high: edge(s, marks, leaving, row_magnitudes, v, true),
        };
    }
    let min = s.mins[v];
    let max = s.maxs[v];
    if holds_on_bounds(s.structurals, s.integer, s.mins, s.maxs, v) {
        return Sides {
            low: min,
            high: max,
        };
    }
    let rooms = widening_rooms(s, marks, row_magnitudes, v);
    let low = moved(min, rooms.lo, false);
    let high = moved(max, rooms.hi, true);
    Sides { low, high }
}
