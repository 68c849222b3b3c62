//! Document 01's example sheet and texts a little off it, as theorems over the definition of the form. There is nothing to run.

#![tactic(auto)]
