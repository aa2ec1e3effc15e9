// The plain holder: clauses one after another, in memory that is reserved when it is made.
#![tactic(auto)]

pub mod clauses;
pub mod flat;
pub mod store;
pub mod work;

pub use clauses::Clauses;
