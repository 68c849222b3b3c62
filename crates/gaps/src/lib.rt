//! The outward gap and the exact gap of a set of kept rows, and the third demand. There is nothing to run.

#![tactic(auto)]
