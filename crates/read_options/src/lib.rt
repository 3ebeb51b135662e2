// The options that are no items, protocol and flow, and a pattern's modifiers: each option's value after its name, with the place after its `;`.
#![tactic(auto)]

pub mod commas;
pub mod heads;
pub mod modifiers;
