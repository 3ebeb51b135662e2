// Whether a pattern's bytes stand at a place of a field, where they do next, and whether it lies nowhere there.
#![tactic(auto)]

pub mod bytes;
pub mod nowhere;
pub mod starts;
