// The state of a search: what it is given, and the starts that it has chosen so far.
#![tactic(auto)]

pub mod chosen;
pub mod input;
