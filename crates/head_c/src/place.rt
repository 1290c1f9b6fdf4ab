// The place of each number of a head in its block. specs/Places.antt has the same table.

// Of the seat.
pub const N: usize = 0;

pub const F: usize = 1;

pub const NUMBER: usize = 2;

pub const PHASE: usize = 3;

pub const ROUND: usize = 4; // 0 collection, 1 confession; in a ring of one round always 0

pub const HEALED: usize = 5; // in healed, ended and held 0 is no, and every other number yes

pub const ENDED: usize = 6;

pub const HELD: usize = 7; // a position is held

pub const POSITION: usize = 8; // two's complement, as all numbers with a sign

pub const RANGED: usize = 9; // a kept range is held: its lowest and highest entry, its trim and its position

pub const LOW: usize = 10;

pub const HIGH: usize = 11;

pub const TRIM: usize = 12;

pub const MIDDLE: usize = 13;

pub const FAMILY: usize = 14; // 0 for a ring of two rounds, and every other number one of one round

pub const SINCE: usize = 15; // phase ends since the start or restart

// What C keeps outside the record: pending events and mask, and an offer; 23 is room for more.
pub const EVENTS: usize = 16;

pub const MASK: usize = 17;

pub const OFFERED: usize = 18; // an offer stands: its lowest and highest kept entry, its trim and its position

pub const OFFER_LOW: usize = 19;

pub const OFFER_HIGH: usize = 20;

pub const OFFER_TRIM: usize = 21;

pub const OFFER_MIDDLE: usize = 22;

// Of what was heard.
pub const HEARD: usize = 24; // the links heard in this round

pub const MARKS: usize = 25; // the list: its marks, and its 32 numbers

pub const ENTRIES: usize = 26;

pub const CONFESSED: usize = 58; // the links that confessed, and those that gave a list

pub const LISTED: usize = 59;

pub const LIST_MARKS: usize = 60; // the lists received: 32 mark words, and 32 lists of 32 numbers

pub const LISTS: usize = 92;
