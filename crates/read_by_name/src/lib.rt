// An option's value by its name in document 01's table, with what stands beside it.
#![tactic(auto)]

pub mod by_name;
mod lists;
pub mod parsed;
