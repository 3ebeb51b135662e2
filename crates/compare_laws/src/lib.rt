// What is written for two rule books, and laws of it. No code.
#![tactic(auto)]
