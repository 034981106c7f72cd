// Worked cases of reasoners.
#![tactic(auto)]

pub mod cases;
