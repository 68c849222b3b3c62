//! Doubles worked out from their 64 bits: absolute value, finiteness, and the larger and the smaller of two.
//! Every function takes every double and asks nothing of its caller.

#![tactic(auto)]

mod bits;
mod ranked;

pub use bits::{abs, is_finite, max, min};
pub use ranked::{INFINITY, SIGN, negative, positive};
