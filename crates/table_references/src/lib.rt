// Which references are usable, pattern by pattern: what refusals 10 and 20 go by.
#![tactic(auto)]

pub mod usable;
