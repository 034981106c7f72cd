// The world reasoner: what is true in every world that agrees, found by trying them all.
#![tactic(auto)]

mod states;
mod traces;
pub mod worlds;
