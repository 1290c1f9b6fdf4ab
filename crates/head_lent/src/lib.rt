// The calls on a head's record that its owner keeps and lends: each changes that record itself, or reads it. Each is a thin form of a call
// by value, and its promise is that call's definition (head_spec's specs/Calls.antt). A refusal gives its number and leaves the record, and
// what else is lent, as it was.
#![tactic(auto)]

ghost use Rattle.std.specs.Prelude.{◌≡◌, length};
ghost use Rattle.terms.specs.Refused.{number_of};
ghost use Rattle.head_spec.specs.Batch.{hear_batch, batch_answers, batch_count};
ghost use Rattle.head_spec.specs.Calls.{start, restart, start_listener, restart_listener, hear, write_answer, write_buffer, close, adopt};
ghost use Rattle.head_lent.specs.Answers.{written_number, written_or, held_number, held_or};

use head_spec::{Closed, Head, Offer};
use terms::{Family, Refusal};

// Starts the record with a position, in phase 1: 0, or 1, 2 or 18 by the family, 3, 4.
pub fn start(
    h: &mut Head,
    family: Family,
    n: u32,
    f: u32,
    number: u32,
    position: i32,
) -> Result<(), Refusal>
    ensures { (number_of result ≡ (start h.old family n f number position).refusal) × (h.new ≡ (start h.old family n f number position).head) }
{
    *h = head_calls::start(family, n, f, number, position)?;
    Ok(())
}

// Starts the record of a head again whose strike is over, in the phase and round given, with no position: 0, or 1, 2 or 18, 3, 5.
pub fn restart(
    h: &mut Head,
    family: Family,
    n: u32,
    f: u32,
    number: u32,
    phase: u32,
    round: u32,
) -> Result<(), Refusal>
    ensures { (number_of result ≡ (restart h.old family n f number phase round).refusal) × (h.new ≡ (restart h.old family n f number phase round).head) }
{
    *h = head_calls::restart(family, n, f, number, phase, round)?;
    Ok(())
}

// Starts the record of a listener, in phase 1, with no position: 0, or 1, 2 or 18, 3.
pub fn start_listener(
    h: &mut Head,
    family: Family,
    n: u32,
    f: u32,
    number: u32,
) -> Result<(), Refusal>
    ensures { (number_of result ≡ (start_listener h.old family n f number).refusal) × (h.new ≡ (start_listener h.old family n f number).head) }
{
    *h = head_calls::start_listener(family, n, f, number)?;
    Ok(())
}

// Starts the record of a listener again whose strike is over, in the phase and round given, with no position: 0, or 1, 2 or 18, 3, 5.
pub fn restart_listener(
    h: &mut Head,
    family: Family,
    n: u32,
    f: u32,
    number: u32,
    phase: u32,
    round: u32,
) -> Result<(), Refusal>
    ensures { (number_of result ≡ (restart_listener h.old family n f number phase round).refusal)
        × (h.new ≡ (restart_listener h.old family n f number phase round).head) }
{
    *h = head_calls::restart_listener(family, n, f, number, phase, round)?;
    Ok(())
}

// Hears a frame on a link: 0, or 26, 3, 21, 6, 7, 8, 22, 9, 23, 10, 11.
pub fn hear(h: &mut Head, link: u32, frame: &[u8]) -> u8
    ensures { (result ≡ (hear h.old link frame.now).refusal) × (h.new ≡ (hear h.old link frame.now).head) }
{
    let out = head_hear::hear(*h, link, frame);
    *h = out.head;
    out.refusal
}

// Hears a round's frames, each behind its link byte, in order, going on past a refused one: 0, or 15, 24. The front of `answers` gets a
// number for each frame, and `count` how many there are.
pub fn hear_batch(h: &mut Head, batch: &[u8], answers: &mut [u8], count: &mut usize) -> u8
    ensures { (result ≡ (hear_batch h.old batch.now (length answers.old)).refusal)
        × (h.new ≡ (hear_batch h.old batch.now (length answers.old)).head)
        × (answers.new ≡ batch_answers h.old batch.now answers.old)
        × (count.new ≡ batch_count batch.now (length answers.old) count.old) }
{
    let out = head_hear::hear_batch(*h, batch, answers, count);
    *h = out.head;
    out.refusal
}

// Closes the round, or refuses 26, 25: it ends a collection round, and answers the position of a phase's last round, which is then the
// offer. `head_calls::offered` and `head_calls::lapsed` say what becomes of an offer.
pub fn close(h: &mut Head) -> Closed
    ensures { (result ≡ (close h.old).closed) × (h.new ≡ (close h.old).head) }
{
    let out = head_calls::close(*h);
    *h = out.head;
    out.closed
}

// Adopts what is offered, and ends the phase: 0, or 27, 26.
pub fn adopt(h: &mut Head, offer: Offer) -> Result<(), Refusal>
    ensures { (number_of result ≡ (adopt h.old offer).refusal) × (h.new ≡ (adopt h.old offer).head) }
{
    *h = head_calls::adopt(*h, offer)?;
    Ok(())
}

// What writing by value answers, as a number, and the frame's length where it was lent.
pub fn written(h: Head, buffer: &mut [u8], length: &mut usize) -> u8
    ensures { (result ≡ written_number (write_answer h buffer.old))
        × (buffer.new ≡ write_buffer h buffer.old)
        × (length.new ≡ written_or (write_answer h buffer.old) length.old) }
{
    match head_calls::write(h, buffer) {
        Err(refusal) => refusal.number(),
        Ok(n) => {
            *length = n;
            0
        }
    }
}

// Writes what the head has to say at the front of the buffer, and the frame's length: 0, or 26, 17, 24.
pub fn write(h: &Head, buffer: &mut [u8], length: &mut usize) -> u8
    ensures { (result ≡ written_number (write_answer h.now buffer.old))
        × (buffer.new ≡ write_buffer h.now buffer.old)
        × (length.new ≡ written_or (write_answer h.now buffer.old) length.old) }
{
    written(*h, buffer, length)
}

// The position of a record by value, where it was lent: 1, or 0 if there is none.
pub fn held(h: Head, position: &mut i32) -> u8
    ensures { (result ≡ held_number h.seat.position) × (position.new ≡ held_or h.seat.position position.old) }
{
    let seat = h.seat;
    let e = seat.position;
    match e {
        None => 0,
        Some(v) => {
            *position = v;
            1
        }
    }
}

// The position that the record holds: 1, or 0 if it holds none.
pub fn position(h: &Head, position: &mut i32) -> u8
    ensures { (result ≡ held_number h.now.seat.position)
        × (position.new ≡ held_or h.now.seat.position position.old) }
{
    held(*h, position)
}
