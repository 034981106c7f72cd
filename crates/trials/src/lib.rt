// Tests of the public calls, in a crate of their own so that the crates that they test stay quick to prove.
#![tactic(auto)]

mod bytes;
mod calls;
mod domains;
mod inputs;
mod plans;
mod reasoners;
mod sets;
