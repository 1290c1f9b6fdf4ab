// A ring of heads and listeners as C keeps them. No functions: specs/Blocks.antt says what a round of calls makes of n + m blocks, and
// states demand 3 of them.
#![tactic(auto)]
