// Hearing, on a head's record by value: one frame, and a round's frames in one call. Each promise is an equation with a definition of
// head_spec's specs/Calls.antt or specs/Batch.antt, that of `said_on` with one of specs/Steps.antt; a refusal gives its number and leaves
// the record, and what else is lent, as it was.
#![tactic(auto)]

ghost use Rattle.std.specs.Prelude.{true, ◌++◌, ◌≡◌, ◌≤◌, length, drop};
ghost use Rattle.terms.specs.Refused.{number_of};
ghost use Rattle.frame_spec.specs.Said.{said_of};
ghost use Rattle.head_spec.specs.Calls.{with_entry, with_list, hear, hear_each, answers_to};
ghost use Rattle.head_spec.specs.Batch.{entry_size, deliveries_of, is_batch, batch_refusal, hear_batch, batch_answers, batch_count};
ghost use Rattle.head_hear.specs.Steps.{link_refusal, said_on};

use frame_spec::Said;
use head_spec::{Answer, Head, Row};
use settle_trust::Links;
use terms::{Entry, Refusal, Table};

// Refusals 26, 3 and 21 of a link.
fn link_refusal(ended: bool, n: u8, heard: u32, link: u32) -> Result<(), Refusal>
    ensures { number_of result ≡ link_refusal ended n heard link }
{
    let again = marks::marked(heard, link as usize);
    if ended {
        return Err(Refusal::RunHasEnded);
    }
    if n as u32 <= link {
        return Err(Refusal::NumberTooHigh);
    }
    if again {
        return Err(Refusal::AlreadyHeard);
    }
    Ok(())
}

// What a link says to a head in this phase and round that has heard these links: refused for itself, or what its frame says.
pub fn said_on(
    ended: bool,
    n: u8,
    phase: u16,
    round: u8,
    heard: u32,
    link: u32,
    frame: &[u8],
) -> Said
    ensures { result ≡ said_of (said_on ended n phase round heard link frame.now) }
{
    match link_refusal(ended, n, heard, link) {
        Err(refusal) => Said::Refused(refusal.number()),
        Ok(()) => frame_codec::read(frame, n, phase, round, link as u8),
    }
}

// A list with position v at k, if it has such a place.
fn with_position(list: Table, k: usize, v: i32) -> Table
    ensures { result ≡ with_entry list k (Some v) }
{
    let mut next = list;
    next.marks = marks::with_mark(list.marks, k);
    if k < terms::HEADS {
        next.entries[k] = v;
    }
    next
}

// The list that is being filled, with entry k.
fn with_entry(list: Table, k: usize, entry: Entry) -> Table
    ensures { result ≡ with_entry list k entry }
{
    match entry {
        None => list,
        Some(v) => with_position(list, k, v),
    }
}

// Link k gave a list.
fn with_list(links: Links, k: usize, table: Table) -> Links
    ensures { result ≡ with_list links k table }
{
    let mut next = links;
    next.listed = marks::with_mark(links.listed, k);
    if k < terms::HEADS {
        next.marks[k] = table.marks;
    }
    next
}

// Hears a frame on a link.
pub fn hear(h: Head, link: u32, frame: &[u8]) -> Answer
    ensures { result ≡ hear h link frame.now }
{
    let s = h.seat;
    let k = link as usize;
    let said = said_on(s.ended, s.n, s.phase, s.round, h.heard, link, frame);
    let p = frame_codec::parts_of(said);
    let mut next = h;
    next.heard = marks::with_mark(h.heard, k);
    if !p.accepted {
        return Answer {
            refusal: p.refusal,
            head: h, // as it was
        };
    }
    if p.list {
        let table = frame_codec::table_in(frame, s.n);
        next.links = with_list(h.links, k, table);
        if k < terms::HEADS {
            let entries = table.entries;
            next.lists[k] = Row { entries };
        }
    } else if p.confession {
        next.links.confessed = marks::with_mark(h.links.confessed, k);
    } else {
        let entry = p.entry;
        next.list = with_entry(h.list, k, entry);
    }
    Answer {
        refusal: 0,
        head: next,
    }
}

// ---- A round's frames in one call.

// The bytes of the first entry of a batch, its link byte among them; 0 if it is not whole.
pub fn entry_size(s: &[u8]) -> usize
    ensures { result ≡ entry_size s.now }
{
    let len = fields::half_at(s, 1) as usize;
    if len < 4 {
        return 0;
    }
    if s.len() <= len {
        return 0;
    }
    len + 1
}

// How a batch is cut: 0, or 15, or 24 if there is too little room for answers; and how many whole entries there are at its front. No Result:
// the count is told beside a refusal too.
#[derive(Clone, Copy)]
pub struct Cuts {
    pub refusal: u8,
    pub entries: usize,
}

// Cuts a batch into entries.
pub fn cut(batch: &[u8], room: usize) -> Cuts
    ensures { result ≡ record { refusal = batch_refusal batch.now room; entries = length (deliveries_of batch.now) } }
{
    let mut rest = batch;
    let mut entries: usize = 0;
    // Entries differ in length, so each is cut from the front of what remains: no iterator over the bytes gives them.
    while !rest.is_empty() {
        let size = entry_size(rest);
        if size == 0 {
            return Cuts {
                refusal: Refusal::BadBatchEntry.number(),
                entries,
            };
        }
        rest = &rest[size..];
        entries += 1;
    }
    if room < entries {
        return Cuts {
            refusal: Refusal::BufferTooShort.number(),
            entries,
        };
    }
    Cuts {
        refusal: 0,
        entries,
    }
}

// Hears the frames of a batch that is whole, and answers each where there is room for its answer.
fn hear_entries(h: Head, batch: &[u8], answers: &mut [u8]) -> Head
    requires { (is_batch batch.now ≡ true) × (length (deliveries_of batch.now) ≤ length answers.old) }
    ensures head { result ≡ hear_each h (deliveries_of batch.now) }
    ensures answers { answers.new ≡ answers_to h (deliveries_of batch.now) ++ drop (length (deliveries_of batch.now)) answers.old }
{
    let mut next = h;
    let mut rest = batch;
    let mut i: usize = 0;
    // Entries differ in length, so each is cut from the front of what remains: no iterator over the bytes gives them.
    while let [link, behind @ ..] = rest {
        let (frame, after) = behind.split_at(entry_size(rest) - 1);
        let heard = hear(next, *link as u32, frame);
        next = heard.head;
        answers[i] = heard.refusal;
        rest = after;
        i += 1;
    }
    next
}

// Hears a round's frames, each behind its link byte, in order, going on past a refused one: 0, or 15, 24. The front of `answers` gets a
// number for each frame, and `count` how many there are.
pub fn hear_batch(h: Head, batch: &[u8], answers: &mut [u8], count: &mut usize) -> Answer
    ensures { (result ≡ hear_batch h batch.now (length answers.old))
        × (answers.new ≡ batch_answers h batch.now answers.old)
        × (count.new ≡ batch_count batch.now (length answers.old) count.old) }
{
    let c = cut(batch, answers.len());
    if c.refusal != 0 {
        return Answer {
            refusal: c.refusal,
            head: h,
        };
    }
    let head = hear_entries(h, batch, answers);
    *count = c.entries;
    Answer { refusal: 0, head }
}
