// Why a call is refused, and the limits that calls are held to.
#![tactic(auto)]

pub mod limits;
pub mod refusal;
