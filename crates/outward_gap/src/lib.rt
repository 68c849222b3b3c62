//! The outward gap of any set of kept rows, any rows and any ranges, as lists: both ends of each coefficient of the combined row,
//! the right side, and the largest value of the row, each rounded to the side that makes the gap smaller.

#![tactic(auto)]

mod coefficients;
mod largest;
mod lent;
mod reckoning;
mod right_sides;

pub use coefficients::add_rows;
pub use largest::largest_value;
pub use lent::{Ends, Rows};
pub use reckoning::outward_gap;
pub use right_sides::right_side;
