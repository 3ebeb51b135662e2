// An item in numbers: its case, what stands in it, and zeros. The offset of a distance has a sign and stands beside them. No code.
// proofs/ItemsBack.antt: an item can be told from its numbers and its offset, so nothing is left out.
#![tactic(auto)]
