//! Why what a rounding leaves out is itself a double: the whole-number laws of Sterbenz, Knuth, Veltkamp and Dekker. There is
//! nothing to run.

#![tactic(auto)]
