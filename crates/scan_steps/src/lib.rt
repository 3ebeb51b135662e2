// The pieces of forms from cursor to cursor: each scanner goes on from any cursor, after all that was read up to there. So an option
// is scanned step by step, each step from the cursor of the one before.
#![tactic(auto)]

pub mod literals;
pub mod numbers;
pub mod runs;
pub mod words;
