// Domains, plans and refusals as text for people.
#![tactic(auto)]

pub mod plans;
pub mod refusals;
pub mod sheets;
