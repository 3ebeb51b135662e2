// The reader takes exactly the texts of the grammar. No code.
#![tactic(auto)]
