// The history reasoner: known facts by sweeps of the six rules over the moments.
#![tactic(auto)]

pub mod history;
mod pairs;
mod sets;
mod start;
mod sweeps;
