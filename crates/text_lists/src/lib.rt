//! The lists of lines: the variables, the rows with their pairs, and the multipliers, read into lent slices, and the widened
//! lines, whose items are marked. A slice shorter than its list holds the front of it.

#![tactic(auto)]

mod lent;
mod multiplier_list;
mod row_lists;
mod variables;
mod variables_lent;
mod widened_list;

pub use lent::{RhoLists, RowLists};
pub use multiplier_list::read_multipliers;
pub use row_lists::{Reached, RowLine, read_rows};
pub use variables::read_variables;
pub use variables_lent::VariableLists;
pub use widened_list::read_widened;
