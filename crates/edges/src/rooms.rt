//! How far a bound may move out.
ghost use Rattle.std.specs.Prelude.{◌≡◌, cond};
ghost use Rattle.cdouble.specs.Compensated.{plus_zero};
ghost use Rattle.questions.specs.declared.widened.Marks.{Marks};
ghost use Rattle.edges.specs.Model.{lent_model};
ghost use Rattle.edges.specs.Rooms.{own_rooms, widening_room, widening_rooms};
ghost use Rattle.edges.specs.RoomReads.{Known, LentKnown, LentReads, Readable};

use crate::{row_of, slack_room, tolerances_of};
use questions::Marks;
use sheet::Sheet;
use tolerances::BoundTols;

/// How far each bound of `v` may move out where it is not widened and `v` is not leaving.
#[tactic(auto, unfolding(crate::specs::Rooms::own_rooms))]
fn own_rooms(s: &Sheet, row_magnitudes: &[f64], v: usize) -> BoundTols
    requires readable { LentReads s.now v }
    requires known { LentKnown s.now row_magnitudes.now v }
    ensures { (marks : Marks) → result ≡ own_rooms (lent_model s.now marks) v }
{
    if v < s.structurals {
        return tolerances_of(s.low_tolerances, s.high_tolerances, v);
    }
    let r = v - s.structurals;
    let row = row_of(s, r);
    let room = slack_room(s.feasibility, &row, row_magnitudes[r]);
    BoundTols { lo: room, hi: room }
}

/// How far the bound of `v` on this side may move out where `v` is not leaving.
#[tactic(auto, unfolding(crate::specs::Rooms::widening_room))]
pub fn widening_room(s: &Sheet, marks: &Marks, row_magnitudes: &[f64], v: usize, up: bool) -> f64
    requires readable { Readable (lent_model s.now marks.now) v }
    requires known { Known (lent_model s.now marks.now) row_magnitudes.now v }
    ensures { result ≡ widening_room (lent_model s.now marks.now) v up }
{
    if marks.holds(v, up) {
        return 0.0;
    }
    own_rooms(s, row_magnitudes, v).toward(up)
}

/// The room of a bound, which has none where it is widened.
fn unless_widened(widened: bool, room: f64) -> f64
    ensures { result ≡ cond widened plus_zero room }
{
    if widened { 0.0 } else { room }
}

/// How far each bound of `v` may move out where `v` is not leaving: a slack's room is worked out one time for the two.
#[tactic(auto, unfolding(tolerances::specs::Tolerances::toward, crate::specs::Rooms::widening_room))]
pub fn widening_rooms(s: &Sheet, marks: &Marks, row_magnitudes: &[f64], v: usize) -> BoundTols
    requires readable { Readable (lent_model s.now marks.now) v }
    requires known { Known (lent_model s.now marks.now) row_magnitudes.now v }
    ensures { result ≡ widening_rooms (lent_model s.now marks.now) v }
{
    let low = marks.holds(v, false);
    let high = marks.holds(v, true);
    let rooms = own_rooms(s, row_magnitudes, v);
    BoundTols {
        lo: unless_widened(low, rooms.lo),
        hi: unless_widened(high, rooms.hi),
    }
}
