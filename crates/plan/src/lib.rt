// Conditional plans: the record, and its packed layout read and written.
#![tactic(auto)]

pub mod node;
pub mod nodes;
pub mod read;
pub mod record;
pub mod refusal;
pub mod write;
