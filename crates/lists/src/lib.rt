// Lists that never allocate.
#![tactic(auto)]

pub mod fixed_list;
pub mod slices;
