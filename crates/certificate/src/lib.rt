//! The certificate that a row of the basis inverse suggests: the rows, each times its multiplier, added up.

#![tactic(auto)]

mod adding;
mod combine;
mod kept_terms;

pub use adding::{Sums, spread_row, summed};
pub use combine::certificate;
pub use kept_terms::keep_row;
