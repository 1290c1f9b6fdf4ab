// Algorithm CC and the argument that a ring of it converges. No code: definitions in specs/, and the proof of demand 3 in proofs/.
#![tactic(auto)]
