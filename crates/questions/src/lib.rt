//! The questions put to lists of numbers, and the limits. The sheet's own crate asks all questions in document 01's order;
//! what a function here asks of its caller is what the earlier questions have shown.

#![tactic(auto)]

mod basis;
mod lists;
mod rows;
mod widened;

pub use basis::basis_fine;
pub use lists::{all_finite, bounds_fine, leaving_row_fine, tolerances_fine};
pub use rows::{columns_fine, entries_fine, starts_fine};
pub use widened::{Marks, Widened, search, variable_count};

/// The limits of the second question.
pub const MOST_ROWS: usize = 128;

pub const MOST_STRUCTURALS: usize = 256;

pub const MOST_ENTRIES: usize = 4096;

/// Each variable that they allow.
pub const MOST_VARIABLES: usize = MOST_STRUCTURALS + MOST_ROWS;
