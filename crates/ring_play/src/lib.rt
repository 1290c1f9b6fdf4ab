// A round of a whole ring, played on the heads' memory. What an unstruck head says is heard as it is, and planted bytes are read as frames.
// `collect` and `confess` play the two rounds of a phase, `conclude` the one round of a phase of one; all else is private to this crate.
#![tactic(auto)]

mod codes;
mod collection;
mod confession;
mod round;
mod shared;
mod sides;

pub use collection::{collect, conclude};
pub use confession::confess;

// The ring in a round: its size, the phase, the heads struck in the round before and those struck in this one; how many listeners there
// are, and those struck in this round, bit j for listener 32 + j.
#[derive(Clone, Copy)]
pub struct Stage {
    pub n: u8,
    pub f: u8,
    pub phase: u16,
    pub before: u32,
    pub struck: u32,
    pub listeners: u8,
    pub away: u32,
}
