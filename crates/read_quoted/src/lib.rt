// Scanners of what stands in quotes: names, and pattern bytes, stored as they are read. Each answers with what it read and where it
// stands, or with the first place at which its form can't go on.
#![tactic(auto)]

pub mod pattern_blocks;
pub mod patterns;
pub mod quoted_names;
