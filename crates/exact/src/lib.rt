//! Exact values of doubles, and the whole-number laws that every proof above rests on. There is nothing to run.

#![tactic(auto)]
