//! The multipliers, one for each row.
ghost use Rattle.std.specs.Prelude.{◌≡◌};
ghost use Rattle.text_lists.specs.Lent.{SameRhos, lent_rhos, with_rho, with_rhos};
ghost use Rattle.text_lists.specs.Multipliers.{rho_lines, rho_lines_end};

use crate::lent::RhoLists;
use repeats::put;
use text_lines::{RhoLine, rho_line};

// The line of the i-th row, stored.
fn store_rho(i: usize, line: RhoLine, l: &mut RhoLists)
    ensures same_slices { SameRhos l.old l.new }
    ensures value { lent_rhos l.new ≡ with_rho i line (lent_rhos l.old) }
{
    put(l.rho_hi, i, line.hi);
    put(l.rho_lo, i, line.lo);
    put(l.second, i, line.second);
}

/// The rho lines of all rows from a position on, and the position after them. Where `checked` is 0, each second correction
/// is +0.
pub fn read_multipliers(
    text: &[u8],
    checked: u8,
    position: Option<usize>,
    rows: usize,
    l: &mut RhoLists,
) -> Option<usize>
    ensures value { result ≡ rho_lines_end text.now checked rows position }
    ensures same_slices { SameRhos l.old l.new }
    ensures lists { lent_rhos l.new ≡ with_rhos (rho_lines text.now checked rows position) (lent_rhos l.old) }
{
    let mut next = position;
    // Kept: `i` is the place in three lists, of which one may be shorter than the others.
    for i in 0..rows {
        let line = rho_line(text, checked, next);
        store_rho(i, line, l);
        next = line.next;
    }
    next
}
