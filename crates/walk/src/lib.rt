//! The walk over the variables, which adds up the largest value that the combined row can take.

#![tactic(auto)]

mod states;
mod steps;

pub use states::{Coefficient, End, Walk, Walked};
pub use steps::{started, walk_over};
