//! Sums and products rounded outward in f64 arithmetic: the rounded result and what its rounding left out say which
//! neighbour is the bound. The results are those of `outward_by_ranks`, called wherever this is not known to be exact.

#![tactic(auto)]

mod larger;
mod products;
mod ranges;
mod scaled;
mod shifted;
mod stepped;
mod sums;
mod upward;

pub use larger::{larger_product, largest_product};
pub use products::product_bounds;
pub use scaled::{Factor, factor_of, with_scaled};
pub use sums::rounded_sum;
pub use upward::mul_up;
