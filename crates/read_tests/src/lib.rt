// The options that are tests, but addresses: each option's value after its name, with the place after its `;`.
#![tactic(auto)]

pub mod commas;
pub mod tests;
