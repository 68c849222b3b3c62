//! Where a variable stands and how far it may go: a row at the sheet's values, what kind a variable is, its bounds, tolerances
//! and room, and its edges: how far past its bounds the judgement lets it go, of one variable or of all.

#![tactic(auto)]

mod activity;
mod both;
mod bounds;
mod kinds;
mod magnitudes;
mod ranges;
mod rooms;
mod rows;
mod variables;

pub use activity::{Activity, row_activity, row_terms, slack_room};
pub use both::{Sides, both_edges};
pub use bounds::{bound_of, tolerances_of};
pub use kinds::{holds_on_bounds, is_integer, leaving_variable};
pub use magnitudes::write_magnitudes;
pub use ranges::write_ranges;
pub use rooms::{widening_room, widening_rooms};
pub use rows::{Row, row_of};
pub use variables::edge;
