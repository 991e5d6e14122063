// The worked cases of document 01 that are proved, computed together over the definitions: "Both sides of each line", the starred ones, and
// some that count steps. There is no function here; the theorems are in proofs/.

#![tactic(auto)]
