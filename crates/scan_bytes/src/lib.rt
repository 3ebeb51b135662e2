// The bytes of a text: classes, runs, and the numbers that digits write.
#![tactic(auto)]

pub mod bytes;
pub mod numbers;
pub mod runs;
