// Reasoners: what is known of each moment, by whatever way of reasoning.
#![tactic(auto)]

pub mod effects;
pub mod question;
pub mod reasoner;
pub mod refusal;
pub mod told;
