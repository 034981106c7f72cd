// The log: what was ordered, looked at and told, over any reasoner.
#![tactic(auto)]

pub mod log;
pub mod refusal;
pub mod slip;
mod state;
