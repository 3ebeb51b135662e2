// The text of an answer to one query, and of the whole list of placements, put into a lent buffer.
#![tactic(auto)]

pub mod answers;
pub mod lists;
mod placement_text;
