// The pieces that forms are made of: single bytes, spaces, words and numbers. Each scanner answers with what it read and where it
// stands, or with the first place at which its form can't go on.
#![tactic(auto)]

pub mod literals;
pub mod numbers;
pub mod runs;
pub mod words;
