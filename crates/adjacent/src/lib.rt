//! The doubles next to a double, worked out from its sign, exponent and digits by cases: next.rt has the table.

#![tactic(auto)]

mod case_of;
mod fields;
mod next;
mod step;

pub use next::{next_down, next_up};
pub use step::stepped;
