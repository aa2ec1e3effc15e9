// Reads problem files: fields, records and whole problems.
#![tactic(auto)]

pub mod drafting;
pub mod faults;
pub mod field;
pub mod file;
pub(crate) mod labels;
pub mod opening;
pub mod place;
pub mod reading;
pub mod records;
