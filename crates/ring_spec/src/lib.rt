// A ring of n head records, round by round. No functions: specs/Rounds.antt says what a round makes of the records, specs/Converges.antt
// states demand 3 of them.
#![tactic(auto)]
