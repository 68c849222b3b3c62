//! Laws of loops, of tests over all places, and of lists by their places. Definitions and laws, nothing to run.

#![tactic(auto)]
