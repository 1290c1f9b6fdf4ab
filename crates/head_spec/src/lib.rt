// The head's record and what the calls on it answer. No functions: specs/Calls.antt says what each call makes of the record.
#![tactic(auto)]

use settle_midpoint::Kept;
use settle_trust::Links;
use terms::{Entry, Family, HEADS, Table};

// The numbers of a received list.
#[derive(Clone, Copy)]
pub struct Row {
    pub entries: [i32; HEADS],
}

// What the last phase end since the start or restart settled: the kept range, the trim and the position; none before the first.
pub type LastKept = Option<Kept>;

// What closing offered, with its kept range, until it is adopted or lapses (document 02, A8), or none. It is kept outside the record.
pub type Offer = Option<Kept>;

// A head's place in its ring: the ring, its number, the phase and round, the position that it holds, and how many phase ends it has passed.
// Healed is the field's cured.
#[derive(Clone, Copy)]
pub struct Seat {
    pub family: Family,
    pub n: u8,
    pub f: u8,
    pub number: u8,
    pub phase: u16,
    pub round: u8, // 0 collection, 1 confession; in a ring of one round always 0
    pub healed: bool, // in this round
    pub ended: bool, // phase 65,535 has ended
    pub position: Entry,
    pub kept: LastKept, // by the last phase end
    pub since: u8, // phase ends since the start or restart, up to 255, where the count rests
}

// All that a head remembers: its seat, and what it has heard in this phase.
#[derive(Clone, Copy)]
pub struct Head {
    pub seat: Seat,
    pub heard: u32, // the links heard in this round
    pub list: Table, // in round 0 what is heard so far, in confession the list of this phase
    pub links: Links, // which links confessed or gave a list, and the lists' marks
    pub lists: [Row; HEADS], // the lists received
}

// What hearing answers: 0 or the refusal's number, and the record.
#[derive(Clone, Copy)]
pub struct Answer {
    pub refusal: u8,
    pub head: Head,
}

// What closing answers: the collection round is closed, a position is settled and offered, or a refusal. No Result with a `Refusal`: what
// takes it (`head_calls::offered`, `head_window::after_close`) promises for any number.
#[derive(Clone, Copy)]
pub enum Closed {
    Refused(u8),
    Listed,
    Settled(Kept),
}

#[derive(Clone, Copy)]
pub struct Closing {
    pub closed: Closed,
    pub head: Head,
}
