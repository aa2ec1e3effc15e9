// The text that the page program prints.
#![tactic(auto)]

pub mod printing;
