//! The lines of a sheet's text.

#![tactic(auto)]

mod heading_line;
mod multiplier_lines;
mod row_items;
mod sided_lines;
mod variable_lines;

pub use heading_line::{Heading, heading_lines};
pub use multiplier_lines::{RhoLine, multipliers_line, rho_line};
pub use row_items::{Pair, RowHead, no_pair, pair_at, row_end, row_head};
pub use sided_lines::{SidedLine, leave_line, no_widened, widened_line};
pub use variable_lines::{VariableLine, line_at};
