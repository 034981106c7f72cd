// The supposing layer: what a reasoner shows with a fluent supposed true and supposed false.
#![tactic(auto)]

pub mod supposing;
