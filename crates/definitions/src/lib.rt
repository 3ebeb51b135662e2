// The types of document 01: limits, the rule table, packet and fields, answers; and of document 02: rule books. No code but `document_limits`; specs/ says what
// they mean.
#![tactic(auto)]

pub mod answers;
pub mod books;
pub mod limits;
pub mod packets;
pub mod table;
