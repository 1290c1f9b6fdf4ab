// The run file and its listing. No functions: specs/RunFile.antt says what bytes mean, specs/Listing.antt what is printed,
// specs/EveryFile.antt states demand 3 of every file.
#![tactic(auto)]

// The sender and receiver of the last planted record of a round, if there was one.
#[derive(Clone, Copy)]
pub struct Pair {
    pub some: bool,
    pub from: u8,
    pub to: u8,
}
