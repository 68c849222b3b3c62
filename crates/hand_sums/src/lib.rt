//! The sums of document 01 that are checked by hand and marked with a star, and doubles of each case with their neighbours, as
//! theorems over the definitions. There is nothing to run.

#![tactic(auto)]
