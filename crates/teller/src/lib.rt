// A reasoner that shows the told facts that count, and nothing else.
#![tactic(auto)]

pub mod teller;
