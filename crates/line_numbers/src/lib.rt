// The numbers of a line: decimal numbers up to a limit, and bytes as pairs of hex digits.
#![tactic(auto)]

pub mod decimals;
pub mod hex_pairs;
