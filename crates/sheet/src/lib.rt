//! The sheet that the counter lends and its outputs, the questions of its sizes and lengths, and all questions in document 01's order.

#![tactic(auto)]

mod answers;
mod in_order;
mod lent;
mod lent_doubles;
mod numbers;
mod outputs;

pub use in_order::first_no;
pub use lent::Sheet;
pub use lent_doubles::sheet_of_doubles;
pub use numbers::Refusal;
pub use outputs::{Lists, Outputs, outputs_of};
