//! The full verdict on a sheet lent in slices: the kept numbers, the outward gap, and whether the order is declined. The
//! first question that the sheet fails is answered instead, and then nothing lent is changed.

#![tactic(auto)]

mod entry;
mod outward;
mod reckoned;

pub use entry::{sheet_verdict, verdict_on};
use judgement::Proof;

/// The verdict on an accepted sheet.
#[repr(C)]
#[derive(Clone, Copy)]
pub struct Verdict {
    pub proof: Proof,
    pub outward: f64,
    pub declined: bool,
}
