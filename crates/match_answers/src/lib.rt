// What the entries' answers are made of: a refusal or a search's outcome as an answer, an answer as a verdict, and the number of positive patterns, which
// refusal 36 goes by.
#![tactic(auto)]

pub mod answers;
pub mod positives;
pub mod verdicts;
