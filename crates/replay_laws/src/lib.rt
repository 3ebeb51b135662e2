// What a replay writes for a book and a trace, and laws of it. No code.
#![tactic(auto)]
