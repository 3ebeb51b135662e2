// A table that is written as its canonical text reads as that table, and what is read can be written. No code.
#![tactic(auto)]
