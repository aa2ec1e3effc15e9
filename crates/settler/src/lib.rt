// What settles whether the clauses that it holds have a model.
#![tactic(auto)]

pub mod settling;
pub mod verdict;

pub use settling::Settler;
pub use verdict::Verdict;
