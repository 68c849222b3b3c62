//! The judgement of a certificate: whether it proves that no point fills the rows and the bounds together.

#![tactic(auto)]

mod cut;
mod gap;
mod weighed;

pub use gap::{Proof, judge};
