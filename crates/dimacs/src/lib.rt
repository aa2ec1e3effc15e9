// The clauses of a holder as DIMACS text.
#![tactic(auto)]

pub mod writing;

pub use writing::write_page;
