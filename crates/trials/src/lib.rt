// The theory of the search: assignments, forcing, courses and their trials.
#![tactic(auto)]

pub mod theorems;
