// headplay: one head's shift. A host in Rattle keeps one head's record and its offer, and lends the record to each call: a script of calls
// from standard input, a line for each call to standard output. At first the head is head 0 of a ring of one, at 0.
//
// A script is at most 65,536 bytes of records. A record: 2 bytes length (of the whole record), 1 byte call, the arguments; numbers of 4
// bytes but for a room, which is 1 byte, all little-endian; a byte that is missing reads as 0, and bytes left over are not looked at. The
// calls:
//     0 start: n, f, number, position           3 restart_listener: n, f, number, phase, round      6 write: room
//     1 restart: n, f, number, phase, round     4 hear: link, then the frame                        7 close
//     2 start_listener: n, f, number            5 hear_batch: room for answers, then the batch      8 adopt
// Any other number is a look at the record. Of calls 0 to 3, byte 23 is the family: 0, or missing, if phases have two rounds, else one
// (document 02, A9).
//
// A line: the call's name and what it gave (a frame or the answers to a batch in hexadecimal, `listed`, or the lowest and highest kept, the
// trim and the position), a colon, the call's number, then what the host holds: phase, round, position or `none`, and the offer or `none`.
// The last line is `end`, or `cut` if the script ends inside a record.
#![tactic(auto)]

ghost use Rattle.std.specs.Prelude.{◌≡◌, pos, length, take};
ghost use Rattle.terms.specs.declared.Family.TheVariants.{TwoRounds};
ghost use Rattle.head_spec.specs.Batch.{hear_batch, batch_answers, batch_count};
ghost use Rattle.head_spec.specs.Calls.{started, start, restart, start_listener, restart_listener, hear, close, adopt};
ghost use Rattle.head_spec.specs.Offers.{lapsed_by};
ghost use Rattle.head_lent.specs.Answers.{closed_number};
ghost use Rattle.fields.specs.Bytes.{at4, signed_at};
ghost use Rattle.headplay.specs.Calls.{Named};
ghost use Rattle.headplay.specs.Script.{answered, family_at, batched, write_outcome, closed, turn, record_size, played};

use head_spec::{Answer, Closed, Closing, Head, Offer};
use settle_midpoint::Kept;
use terms::{Entry, Family};

// Standard input and output, by their numbers.
const STDIN_FILENO: i32 = 0;

const STDOUT_FILENO: i32 = 1;

// ---- The record, lent: each function owns the record, lends it to the call, and gives back what the call answers and the record that it
// left. Those of a start or a restart read their arguments where they stand in a script's record s.

#[inline(never)]
fn start(s: &[u8], mut h: Head) -> Answer
    ensures { result ≡ start h (family_at s.now) (at4 s.now 3) (at4 s.now 7) (at4 s.now 11) (signed_at s.now 15) }
{
    text(b"start");
    let position = fields::signed(fields::word_at(s, 15));
    let started = head_lent::start(
        &mut h,
        family_at(s),
        fields::word_at(s, 3),
        fields::word_at(s, 7),
        fields::word_at(s, 11),
        position,
    );
    Answer {
        refusal: terms::number_of(started),
        head: h,
    }
}

#[inline(never)]
fn restart(s: &[u8], mut h: Head) -> Answer
    ensures { result ≡ restart h (family_at s.now) (at4 s.now 3) (at4 s.now 7) (at4 s.now 11) (at4 s.now 15) (at4 s.now 19) }
{
    text(b"restart");
    let restarted = head_lent::restart(
        &mut h,
        family_at(s),
        fields::word_at(s, 3),
        fields::word_at(s, 7),
        fields::word_at(s, 11),
        fields::word_at(s, 15),
        fields::word_at(s, 19),
    );
    Answer {
        refusal: terms::number_of(restarted),
        head: h,
    }
}

#[inline(never)]
fn start_listener(s: &[u8], mut h: Head) -> Answer
    ensures { result ≡ start_listener h (family_at s.now) (at4 s.now 3) (at4 s.now 7) (at4 s.now 11) }
{
    text(b"start_listener");
    let started = head_lent::start_listener(
        &mut h,
        family_at(s),
        fields::word_at(s, 3),
        fields::word_at(s, 7),
        fields::word_at(s, 11),
    );
    Answer {
        refusal: terms::number_of(started),
        head: h,
    }
}

#[inline(never)]
fn restart_listener(s: &[u8], mut h: Head) -> Answer
    ensures { result ≡ restart_listener h (family_at s.now) (at4 s.now 3) (at4 s.now 7) (at4 s.now 11) (at4 s.now 15) (at4 s.now 19) }
{
    text(b"restart_listener");
    let restarted = head_lent::restart_listener(
        &mut h,
        family_at(s),
        fields::word_at(s, 3),
        fields::word_at(s, 7),
        fields::word_at(s, 11),
        fields::word_at(s, 15),
        fields::word_at(s, 19),
    );
    Answer {
        refusal: terms::number_of(restarted),
        head: h,
    }
}

#[inline(never)]
fn hear(mut h: Head, link: u32, frame: &[u8]) -> Answer
    ensures { result ≡ hear h link frame.now }
{
    text(b"hear");
    let refusal = head_lent::hear(&mut h, link, frame);
    Answer { refusal, head: h }
}

#[inline(never)]
fn hear_batch(mut h: Head, batch: &[u8], answers: &mut [u8], count: &mut usize) -> Answer
    ensures { (result ≡ hear_batch h batch.now (length answers.old))
        × (answers.new ≡ batch_answers h batch.now answers.old)
        × (count.new ≡ batch_count batch.now (length answers.old) count.old) }
{
    let refusal = head_lent::hear_batch(&mut h, batch, answers, count);
    Answer { refusal, head: h }
}

#[inline(never)]
fn close(mut h: Head) -> Closing
    ensures { result ≡ close h }
{
    let closed = head_lent::close(&mut h);
    Closing { closed, head: h }
}

#[inline(never)]
fn adopt(mut h: Head, offer: Offer) -> Answer
    ensures { result ≡ adopt h offer }
{
    text(b"adopt");
    let adopted = head_lent::adopt(&mut h, offer);
    Answer {
        refusal: terms::number_of(adopted),
        head: h,
    }
}

// ---- Text on standard output.

fn text(words: &[u8]) {
    io::write_all(STDOUT_FILENO, words);
}

// A space and a number.
fn count(n: u64) {
    text(b" ");
    io::print_decimal(STDOUT_FILENO, n);
}

fn steps(v: i32) {
    let word = fields::unsigned(v);
    if v < 0 {
        text(b" -");
        io::print_decimal(STDOUT_FILENO, 4294967296 - word as u64);
    } else {
        count(word as u64);
    }
}

fn kept(k: Kept) {
    steps(k.low);
    steps(k.high);
    count(k.trim as u64);
    steps(k.position);
}

// A space and a byte in hexadecimal.
fn byte(b: u8) {
    text(b" ");
    io::print_hex(STDOUT_FILENO, b as u64, 2);
}

fn bytes(s: &[u8]) {
    for b in s {
        byte(*b);
    }
}

// The first len bytes; all of them if they are fewer.
fn front(s: &[u8], len: usize) -> &[u8]
    ensures { result.now ≡ take len s.now }
{
    if s.len() < len {
        return s;
    }
    &s[..len]
}

// ---- The calls of a script.

// The calls, with the numbers that name them in a script.
#[derive(Clone, Copy, Debug, PartialEq, Eq)]
enum Call {
    Start = 0,
    Restart = 1,
    StartListener = 2,
    RestartListener = 3,
    Hear = 4,
    HearBatch = 5,
    Write = 6,
    Close = 7,
    Adopt = 8,
}

// A number that names no call is a look at the record.
#[derive(Clone, Copy, Debug, PartialEq, Eq)]
struct Look;

impl TryFrom<u8> for Call {
    type Error = Look;

    ghost try_from_gives = { Named };

    fn try_from(number: u8) -> Result<Self, Look> {
        match number {
            0 => Ok(Call::Start),
            1 => Ok(Call::Restart),
            2 => Ok(Call::StartListener),
            3 => Ok(Call::RestartListener),
            4 => Ok(Call::Hear),
            5 => Ok(Call::HearBatch),
            6 => Ok(Call::Write),
            7 => Ok(Call::Close),
            8 => Ok(Call::Adopt),
            _ => Err(Look),
        }
    }
}

// A call's number, and what the host holds after it.
#[derive(Clone, Copy)]
struct Outcome {
    number: u8,
    head: Head,
    offer: Offer,
}

fn answered(a: Answer, offer: Offer) -> Outcome
    ensures { result ≡ answered a offer }
{
    Outcome {
        number: a.refusal,
        head: a.head,
        offer: head_calls::lapsed(a.refusal, offer),
    }
}

// The family of the ring that a start or restart is for: byte 23 is 0, or missing, for phases of two rounds.
fn family_at(s: &[u8]) -> Family
    ensures { result ≡ family_at s.now }
{
    if fields::byte_at(s, 23) == 0 {
        return Family::TwoRounds;
    }
    Family::OneRound
}

// The offer after frames with these answers were heard.
fn lapsed_by(answers: &[u8], offer: Offer) -> Offer
    ensures { result ≡ lapsed_by answers.now offer }
{
    answers
        .iter()
        .fold(offer, |left, number| head_calls::lapsed(*number, left))
}

fn batched(h: Head, batch: &[u8], answers: &mut [u8], offer: Offer) -> Outcome
    ensures { result ≡ batched h batch.now (length answers.old) offer }
{
    let mut len: usize = 0;
    let a = hear_batch(h, batch, answers, &mut len);
    let given = front(answers, len);
    text(b"hear_batch");
    bytes(given);
    Outcome {
        number: a.refusal,
        head: a.head,
        offer: lapsed_by(given, offer),
    }
}

fn written(h: Head, buffer: &mut [u8], offer: Offer) -> Outcome
    ensures { result ≡ write_outcome h (length buffer.old) offer }
{
    let mut len: usize = 0;
    let number = head_lent::write(&h, buffer, &mut len);
    text(b"write");
    if number == 0 {
        bytes(front(buffer, len));
    }
    Outcome {
        number,
        head: h,
        offer,
    }
}

// What a closing gave, and its number.
fn closed_number(c: Closed) -> u8
    ensures { result ≡ closed_number c }
{
    text(b"close");
    match c {
        Closed::Refused(number) => number,
        Closed::Listed => {
            text(b" listed");
            0
        }
        Closed::Settled(k) => {
            kept(k);
            0
        }
    }
}

fn closed(h: Head, offer: Offer) -> Outcome
    ensures { result ≡ closed h offer }
{
    let out = close(h);
    Outcome {
        number: closed_number(out.closed),
        head: out.head,
        offer: head_calls::offered(out.closed, offer),
    }
}

// One record of a script.
fn turn(s: &[u8], h: Head, offer: Offer) -> Outcome
    ensures { result ≡ turn s.now h offer }
{
    let room = fields::byte_at(s, 3) as usize;
    let mut space = io::buffer();
    match Call::try_from(fields::byte_at(s, 2)) {
        Ok(Call::Start) => answered(start(s, h), offer),
        Ok(Call::Restart) => answered(restart(s, h), offer),
        Ok(Call::StartListener) => answered(start_listener(s, h), offer),
        Ok(Call::RestartListener) => answered(restart_listener(s, h), offer),
        Ok(Call::Hear) => answered(
            hear(h, fields::word_at(s, 3), fields::bytes_from(s, 7)),
            offer,
        ),
        Ok(Call::HearBatch) => batched(h, fields::bytes_from(s, 4), &mut space[..room], offer),
        Ok(Call::Write) => written(h, &mut space[..room], offer),
        Ok(Call::Close) => closed(h, offer),
        Ok(Call::Adopt) => answered(adopt(h, offer), offer),
        Err(Look) => {
            text(b"look");
            Outcome {
                number: 0,
                head: h,
                offer,
            }
        }
    }
}

// What the host holds after a call.
fn show(x: Outcome) {
    text(b":");
    count(x.number as u64);
    let seat = x.head.seat;
    count(seat.phase as u64);
    count(seat.round as u64);
    match seat.position {
        None => text(b" none"),
        Some(v) => steps(v),
    }
    match x.offer {
        None => text(b" none"),
        Some(k) => kept(k),
    }
    text(b"\n");
}

// ---- The script.

// Head 0 of a ring of one, at 0.
fn first() -> Head
    ensures { result ≡ started TwoRounds 1 0 0 (pos 0) }
{
    let seat = head_calls::first_seat(Family::TwoRounds, 1, 0, 0, Some(0));
    head_calls::opened(seat, head_calls::no_entries())
}

// The length of the first record; 0 if it is cut.
fn record_size(s: &[u8]) -> usize
    ensures { result ≡ record_size s.now }
{
    let size = fields::half_at(s, 0) as usize;
    if size < 3 {
        return 0;
    }
    if s.len() < size {
        return 0;
    }
    size
}

// Plays a script, and answers what the host holds at its end.
fn play(script: &[u8]) -> Outcome
    ensures { result ≡ played script.now }
{
    let mut x = Outcome {
        number: 0,
        head: first(),
        offer: None,
    };
    let mut rest = script;
    // Records differ in length, so each is cut from the front: the bytes hold no parts of one size that an iterator could give.
    while !rest.is_empty() {
        let size = record_size(rest);
        if size == 0 {
            text(b"cut\n");
            return x;
        }
        let (record, behind) = rest.split_at(size);
        x = turn(record, x.head, x.offer);
        show(x);
        rest = behind;
    }
    text(b"end\n");
    x
}

fn main() {
    let mut script = io::large_buffer();
    let len = io::read_full(STDIN_FILENO, &mut script);
    play(front(&script, len));
}
