// Bits of lent bytes, most significant first: a reader, a writer, and what they refuse.
#![tactic(auto)]

pub mod packed;
pub mod reader;
pub mod refusal;
pub mod report;
pub mod width;
pub mod writer;
