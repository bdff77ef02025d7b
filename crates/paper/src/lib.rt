// The scheduling paper's rules in specs/, the tie of the recipe language to them in proofs/, no code.

#![tactic(auto)]
