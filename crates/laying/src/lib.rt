// Clauses, written literal by literal, go into what takes them: a holder, or a meter that only counts.
#![tactic(auto)]

pub mod counting;
pub mod laying;
pub mod line;
pub mod lists;
pub mod literals;
pub mod meter;
pub mod taker;
