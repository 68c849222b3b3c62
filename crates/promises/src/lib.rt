//! What is promised of every answer, as a page to be read first. There is nothing to run.

#![tactic(auto)]
