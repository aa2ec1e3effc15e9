// An assignment with the trail by which it is undone, and what it makes of a clause.
#![tactic(auto)]

pub mod board;
pub mod judge;
pub mod moves;
pub mod pick;
pub mod theorems;
