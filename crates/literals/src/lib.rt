// Literals of at most 32 fluents, sets of them, tables of such sets by moments, and lists of ordered actions.
#![tactic(auto)]

pub mod orders;
pub mod set;
pub mod table;
