//! Doubles that are not negative, by their rank, which is the bit pattern: the ranks of the bounds of a sum, a difference and a
//! product of two.

#![tactic(auto)]

mod digits;
mod ranks;

pub use ranks::{Bounds, FIELD, INFINITY, SIGN, rank_difference, rank_product, rank_sum};
