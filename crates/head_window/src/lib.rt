// The head as a register window of sixteen bytes, and what it keeps outside the record: pending events and a mask.
#![tactic(auto)]

ghost use Rattle.std.specs.Prelude.{◌≡◌, not, ◌&&◌, ◌+◌, ◌*◌};
ghost use Rattle.terms.specs.Counting.{bit};
ghost use Rattle.terms.specs.Refused.{number_of};
ghost use Rattle.marks.specs.Marks.{bit_of};
ghost use Rattle.head_window.specs.Window.{with_event, started_registers, restarted_registers, closed_registers, adopted_registers};
ghost use Rattle.head_window.specs.Window.{three, is_held, position_word, status_bits, window, read_refusal, set_refusal, set_registers, is_line_up};

use head_spec::{Closed, Seat};
use terms::{Entry, Refusal};

// Pending events and mask; of both the three low bits count: 0 phase end, 1 refusal 25, 2 strike over.
#[derive(Clone, Copy)]
pub struct Registers {
    pub events: u32,
    pub mask: u32,
}

// The events' bits.
const PHASE_END: usize = 0;

const TOO_FEW: usize = 1;

const STRIKE_OVER: usize = 2;

// The bytes that may be written, one after the other.
const EVENTS_BYTE: u32 = 10;

const MASK_BYTE: u32 = 11;

pub const BYTES: usize = 16;

pub type Window = [u8; BYTES];

// ---- Which call changes events and mask.

// One event more.
fn with_event(k: usize, b: Registers) -> Registers
    ensures { result ≡ with_event k b }
{
    Registers {
        events: marks::with_mark(b.events, k),
        mask: b.mask,
    }
}

// The number that a call answered may be any, and `Closed` may hold any: a `Refusal` would be a narrower type than these promise for.

// After a start that answers this number: it clears both.
pub fn after_start(number: u8, b: Registers) -> Registers
    ensures { result ≡ started_registers number b }
{
    if number != 0 {
        return b;
    }
    Registers { events: 0, mask: 0 }
}

// After a restart that answers this number: the strike is over.
pub fn after_restart(number: u8, b: Registers) -> Registers
    ensures { result ≡ restarted_registers number b }
{
    if number != 0 {
        return b;
    }
    with_event(STRIKE_OVER, b)
}

// After a closing: too few entries were trusted. An offer is no event.
pub fn after_close(c: Closed, b: Registers) -> Registers
    ensures { result ≡ closed_registers c b }
{
    match c {
        Closed::Refused(number) => {
            if number == Refusal::TooFewTrusted.number() {
                return with_event(TOO_FEW, b);
            }
            b
        }
        Closed::Listed => b,
        Closed::Settled(_) => b,
    }
}

// After an adoption that answers this number: the phase has ended.
pub fn after_adopt(number: u8, b: Registers) -> Registers
    ensures { result ≡ adopted_registers number b }
{
    if number != 0 {
        return b;
    }
    with_event(PHASE_END, b)
}

// ---- The sixteen bytes.

// The byte with these three bits.
fn three(a: bool, b: bool, c: bool) -> u8
    ensures { result ≡ bit a + 2 * bit b + 4 * bit c }
{
    a as u8 + 2 * (b as u8) + 4 * (c as u8)
}

// The three low bits of a word.
fn low_bits(word: u32) -> u8
    ensures { result ≡ three (bit_of word) }
{
    three(
        marks::marked(word, 0),
        marks::marked(word, 1),
        marks::marked(word, 2),
    )
}

fn is_held(e: Entry) -> bool
    ensures { result ≡ is_held e }
{
    match e {
        None => false,
        Some(_) => true,
    }
}

// The word of a position, 0 if there is none.
fn position_word(e: Entry) -> u32
    ensures { result ≡ position_word e }
{
    match e {
        None => 0,
        Some(v) => fields::unsigned(v),
    }
}

// Byte 3.
fn status(s: Seat) -> u8
    ensures { result ≡ three (status_bits s) }
{
    let e = s.position;
    let held = is_held(e);
    let confession = s.round != 0;
    if s.ended {
        return three(held, false, confession);
    }
    three(held, s.healed, confession)
}

// The head as sixteen bytes.
pub fn window(s: Seat, b: Registers) -> Window
    ensures { result ≡ window s b }
{
    let e = s.position;
    let word = position_word(e);
    [
        s.n,
        s.f,
        s.number,
        status(s),
        (s.phase % 256) as u8,
        (s.phase / 256 % 256) as u8,
        (word % 256) as u8,
        (word / 256 % 256) as u8,
        (word / 65536 % 256) as u8,
        (word / 16777216 % 256) as u8,
        low_bits(b.events),
        low_bits(b.mask),
        0,
        0,
        0,
        0,
    ]
}

// ---- Reading and writing a byte.

// Refusal 16 past byte 15.
pub fn read_refusal(at: u32) -> Result<(), Refusal>
    ensures { number_of result ≡ read_refusal at }
{
    if at < 16 {
        Ok(())
    } else {
        Err(Refusal::NoSuchRegister)
    }
}

// Refusal 16 but for bytes 10 and 11.
pub fn set_refusal(at: u32) -> Result<(), Refusal>
    ensures { number_of result ≡ set_refusal at }
{
    if at < EVENTS_BYTE {
        return Err(Refusal::NoSuchRegister);
    }
    if MASK_BYTE < at {
        return Err(Refusal::NoSuchRegister);
    }
    Ok(())
}

// Whether event k is left when a byte is written over the events: ones clear.
fn is_left(events: u32, byte: u8, k: usize) -> bool
    ensures { result ≡ (bit_of events k && not (bit_of byte k)) }
{
    if marks::marked(byte as u32, k) {
        return false;
    }
    marks::marked(events, k)
}

// The events that are left.
fn events_left(events: u32, byte: u8) -> u8
    ensures { result ≡ three (λ k. bit_of events k && not (bit_of byte k)) }
{
    three(
        is_left(events, byte, 0),
        is_left(events, byte, 1),
        is_left(events, byte, 2),
    )
}

// After a write of a byte: byte 10 clears the events written as one, byte 11 is the mask.
pub fn set_register(at: u32, byte: u8, b: Registers) -> Registers
    ensures { result ≡ set_registers at byte b }
{
    if at == EVENTS_BYTE {
        return Registers {
            events: events_left(b.events, byte) as u32,
            mask: b.mask,
        };
    }
    if at == MASK_BYTE {
        return Registers {
            events: b.events,
            mask: low_bits(byte as u32) as u32,
        };
    }
    b
}

// ---- The interrupt line.

// Whether event k is pending and in the mask.
fn is_called(b: Registers, k: usize) -> bool
    ensures { result ≡ (bit_of b.events k && bit_of b.mask k) }
{
    if marks::marked(b.events, k) {
        return marks::marked(b.mask, k);
    }
    false
}

// Whether the line is up: an event is pending and in the mask.
pub fn is_line_up(b: Registers) -> bool
    ensures { result ≡ is_line_up b }
{
    three(is_called(b, 0), is_called(b, 1), is_called(b, 2)) != 0
}
