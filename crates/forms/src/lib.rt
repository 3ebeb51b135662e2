// A small language of text forms: what each form means, how it is scanned, and that the two agree. Definitions and laws only, no code.
#![tactic(auto)]
