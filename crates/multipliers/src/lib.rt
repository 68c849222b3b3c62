//! The multipliers that a row of the basis inverse suggests: whether their errors are bounded, and which are kept.

#![tactic(auto)]

mod refinement;
mod weighing;

pub use refinement::error_bounds;
pub use weighing::{Multiplier, spreads, write_multipliers};
