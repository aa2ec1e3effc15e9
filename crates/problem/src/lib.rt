// A problem: facts, a start list, axioms, rules and goals, built by drafts that are moved on.
#![tactic(auto)]

pub mod drafting;
pub mod drafts;
pub mod given;
pub mod judging;
pub mod lists;
pub mod parts;
pub mod rules;
pub mod whole;
