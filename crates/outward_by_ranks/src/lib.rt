//! Sums and products of doubles rounded outward, worked out from their 64 bits. Every function takes every double and asks
//! nothing of its caller.

#![tactic(auto)]

mod outward;

pub use outward::{product_bounds, rounded_sum};
