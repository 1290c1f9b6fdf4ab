// A ring of devices: n head and m listener records, each driven by its own calls. No functions: specs/Devices.antt says what a round of
// calls makes of them, and states demand 3 of them.
#![tactic(auto)]
