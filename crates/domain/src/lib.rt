// Domain sheets: the record, and its packed layout read and written.
#![tactic(auto)]

pub mod action;
mod list;
mod read;
pub mod record;
pub mod refusal;
mod rows;
pub mod sheet;
pub mod write;
