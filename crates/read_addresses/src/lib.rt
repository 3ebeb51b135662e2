// Scanners of addresses. Each answers with what it read and where it stands, or with the first place at which its form can't go on.
#![tactic(auto)]

pub mod addresses;
pub mod dotted;
