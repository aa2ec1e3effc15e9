// What holds a list of clauses within caps.
#![tactic(auto)]

pub mod held;
pub mod size;

pub use held::Holder;
pub use size::Size;
