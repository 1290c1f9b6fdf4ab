// A head as C keeps it: a block of words, which each call changes in place. Each call changes the record that the block is as the call by
// value changes it; specs/Blocks.antt says which record a block is. A refusal gives its number and leaves the block, and what else is lent,
// as it was; but a closing refused 25 sets its event (specs/Events.antt).
#![tactic(auto)]

ghost use Rattle.std.specs.Prelude.{◌≡◌, length};
ghost use Rattle.head_spec.specs.Calls.{start, restart, start_listener, restart_listener, write_answer, write_buffer, close, adopt};
ghost use Rattle.head_lent.specs.Answers.{closed_number, written_number, written_or, held_number, held_or, range_number, range_or, offer_number, offer_or};
ghost use Rattle.terms.specs.declared.Family.TheVariants.{TwoRounds, OneRound};
ghost use Rattle.head_c.specs.Blocks.{head_of, offer_of, Hears, HearsBatch};
ghost use Rattle.head_c.specs.Events.{starts, restarts, starts_listener, restarts_listener, closes, adopts, block_after};

use crate::block::{bare_in, offer_in, put_fresh, put_registers, registers_in, seat_in};
use crate::close::{close_in, closed_number};
use crate::start::{restart_in, restart_listener_in, start_in, start_listener_in};
use crate::take::{hear, hear_entries};
use terms::{Family, Refusal};

mod block;
mod close;
pub mod former;
pub mod page;
pub mod place;
mod settle;
mod start;
mod take;
pub mod window;

// A head as C keeps it: 1,116 words.
pub const WORDS: usize = 1116;

pub type Block = [u32; WORDS];

// Starts the head with a position, in phase 1: 0, or 1, 2, 3, 4.
pub fn focus_head_start(h: &mut Block, n: u32, f: u32, number: u32, position: i32) -> u8
    ensures { (result ≡ (start (head_of h.old) TwoRounds n f number position).refusal)
        × (h.new ≡ block_after h.old (starts TwoRounds n f number position)) }
{
    start_in(h, Family::TwoRounds, n, f, number, position)
}

// Starts a head again whose strike is over, in the phase and round given, with no position: 0, or 1, 2, 3, 5.
pub fn focus_head_restart(h: &mut Block, n: u32, f: u32, number: u32, phase: u32, round: u32) -> u8
    ensures { (result ≡ (restart (head_of h.old) TwoRounds n f number phase round).refusal)
        × (h.new ≡ block_after h.old (restarts TwoRounds n f number phase round)) }
{
    restart_in(h, Family::TwoRounds, n, f, number, phase, round)
}

// Starts a listener, in phase 1, with no position: 0, or 1, 2, 3.
pub fn focus_listener_start(h: &mut Block, n: u32, f: u32, number: u32) -> u8
    ensures { (result ≡ (start_listener (head_of h.old) TwoRounds n f number).refusal)
        × (h.new ≡ block_after h.old (starts_listener TwoRounds n f number)) }
{
    start_listener_in(h, Family::TwoRounds, n, f, number)
}

// Starts a listener again whose strike is over, in the phase and round given, with no position: 0, or 1, 2, 3, 5.
pub fn focus_listener_restart(
    h: &mut Block,
    n: u32,
    f: u32,
    number: u32,
    phase: u32,
    round: u32,
) -> u8
    ensures { (result ≡ (restart_listener (head_of h.old) TwoRounds n f number phase round).refusal)
        × (h.new ≡ block_after h.old (restarts_listener TwoRounds n f number phase round)) }
{
    restart_listener_in(h, Family::TwoRounds, n, f, number, phase, round)
}

// The same in a ring of one round (document 02, A9), with 18 in place of 2; a restart there is in round 0. All other calls serve both
// families.

// Starts the head with a position, in phase 1: 0, or 1, 18, 3, 4.
pub fn focus_one_round_start(h: &mut Block, n: u32, f: u32, number: u32, position: i32) -> u8
    ensures { (result ≡ (start (head_of h.old) OneRound n f number position).refusal)
        × (h.new ≡ block_after h.old (starts OneRound n f number position)) }
{
    start_in(h, Family::OneRound, n, f, number, position)
}

// Starts a head again whose strike is over, in the phase and round given, with no position: 0, or 1, 18, 3, 5.
pub fn focus_one_round_restart(
    h: &mut Block,
    n: u32,
    f: u32,
    number: u32,
    phase: u32,
    round: u32,
) -> u8
    ensures { (result ≡ (restart (head_of h.old) OneRound n f number phase round).refusal)
        × (h.new ≡ block_after h.old (restarts OneRound n f number phase round)) }
{
    restart_in(h, Family::OneRound, n, f, number, phase, round)
}

// Starts a listener, in phase 1, with no position: 0, or 1, 18, 3.
pub fn focus_one_round_listener_start(h: &mut Block, n: u32, f: u32, number: u32) -> u8
    ensures { (result ≡ (start_listener (head_of h.old) OneRound n f number).refusal)
        × (h.new ≡ block_after h.old (starts_listener OneRound n f number)) }
{
    start_listener_in(h, Family::OneRound, n, f, number)
}

// Starts a listener again whose strike is over, in the phase and round given, with no position: 0, or 1, 18, 3, 5.
pub fn focus_one_round_listener_restart(
    h: &mut Block,
    n: u32,
    f: u32,
    number: u32,
    phase: u32,
    round: u32,
) -> u8
    ensures { (result ≡ (restart_listener (head_of h.old) OneRound n f number phase round).refusal)
        × (h.new ≡ block_after h.old (restarts_listener OneRound n f number phase round)) }
{
    restart_listener_in(h, Family::OneRound, n, f, number, phase, round)
}

// Hears a frame on a link: 0, or 26, 3, 21, 6, 7, 8, 22, 9, 23, 10, 11.
pub fn focus_head_hear(h: &mut Block, link: u32, frame: &[u8]) -> u8
    ensures { Hears h.old link frame.now result h.new }
{
    hear(h, link, frame)
}

// Hears a round's frames, each behind its link byte, in order, going on past a refused one: 0, or 15, 24. The front of `answers` gets a
// number for each frame, and `count` how many there are.
pub fn focus_head_hear_batch(
    h: &mut Block,
    batch: &[u8],
    answers: &mut [u8],
    count: &mut usize,
) -> u8
    ensures { HearsBatch h.old batch.now answers.old count.old
        result h.new answers.new count.new }
{
    let c = head_hear::cut(batch, answers.len());
    if c.refusal != 0 {
        return c.refusal;
    }
    hear_entries(h, batch, answers);
    *count = c.entries;
    0
}

// Closes the round: 0, or 26, 25. It ends a collection round; in the last round of a phase it only offers the position.
pub fn focus_head_close(h: &mut Block) -> u8
    ensures { (result ≡ closed_number (close (head_of h.old)).closed)
        × (h.new ≡ block_after h.old closes) }
{
    let old = registers_in(h);
    let closed = close_in(h);
    let b = head_window::after_close(closed, old);
    put_registers(h, b);
    closed_number(closed)
}

// Adopts what is offered, and ends the phase: 0, or 27, 26.
pub fn focus_head_adopt(h: &mut Block) -> u8
    ensures { (result ≡ (adopt (head_of h.old) (offer_of h.old)).refusal)
        × (h.new ≡ block_after h.old adopts) }
{
    match offer_in(h) {
        None => Refusal::NoOffer.number(),
        Some(kept) => {
            let seat = seat_in(h);
            if seat.ended {
                return Refusal::RunHasEnded.number();
            }
            let b = head_window::after_adopt(0, registers_in(h));
            put_fresh(h, 0, head_calls::next_seat(seat, kept), b);
            0
        }
    }
}

// What is offered, where it was lent: the lowest kept entry, the highest, the trim and the position. 1, or 0 if there is no offer.
pub fn focus_head_has_offer(h: &Block, kept: &mut [i32; 4]) -> u8
    ensures { (result ≡ offer_number (offer_of h.now)) × (kept.new ≡ offer_or (offer_of h.now) kept.old) }
{
    match offer_in(h) {
        None => 0,
        Some(o) => {
            *kept = [o.low, o.high, o.trim as i32, o.position];
            1
        }
    }
}

// Writes what the head has to say at the front of the buffer, and the frame's length: 0, or 26, 17, 24.
pub fn focus_head_write(h: &Block, buffer: &mut [u8], length: &mut usize) -> u8
    ensures { (result ≡ written_number (write_answer (head_of h.now) buffer.old))
        × (buffer.new ≡ write_buffer (head_of h.now) buffer.old)
        × (length.new ≡ written_or (write_answer (head_of h.now) buffer.old) length.old) }
{
    head_lent::written(bare_in(h), buffer, length)
}

// The position that the head holds: 1, or 0 if it holds none.
pub fn focus_head_has_position(h: &Block, position: &mut i32) -> u8
    ensures { (result ≡ held_number (head_of h.now).seat.position)
        × (position.new ≡ held_or (head_of h.now).seat.position position.old) }
{
    let seat = seat_in(h);
    let e = seat.position;
    match e {
        None => 0,
        Some(v) => {
            *position = v;
            1
        }
    }
}

// The kept range that the head holds: 1, and its lowest entry, its highest, its trim and its position; or 0 if it holds none.
pub fn focus_head_has_kept(h: &Block, kept: &mut [i32; 4]) -> u8
    ensures { (result ≡ range_number (head_of h.now).seat.kept)
        × (kept.new ≡ range_or (head_of h.now).seat.kept kept.old) }
{
    let seat = seat_in(h);
    let held = seat.kept;
    match held {
        None => 0,
        Some(k) => {
            *kept = [k.low, k.high, k.trim as i32, k.position];
            1
        }
    }
}

// How many phase ends the head has passed since it was started or restarted, up to 255, where the count rests.
pub fn focus_head_since(h: &Block) -> u8
    ensures { result ≡ (head_of h.now).seat.since }
{
    (h[place::SINCE] % 256) as u8
}
