// What hearing changes in a block. It has words for links 0 to 31: of another link nothing is taken.
ghost use Rattle.std.specs.Prelude.{◌≡◌, true, ◌++◌, ◌≤◌, ◌<◌, length, drop};
ghost use Rattle.frame_spec.specs.Said.{collected, listed, confessed};
ghost use Rattle.head_spec.specs.Calls.{hear_each, answers_to};
ghost use Rattle.head_spec.specs.Batch.{is_batch, deliveries_of};
ghost use Rattle.head_c.specs.Blocks.{IsBlock, head_of, marked, heard_on, heard_in, Hears, heard_each};

use crate::block::put_numbers;
use crate::place;
use terms::{Entry, Table};

// Sets bit k of a word.
fn put_mark(h: &mut [u32], at: usize, k: usize)
    requires { at < length h.old }
    ensures { h.new ≡ marked at k h.old }
{
    h[at] = marks::with_mark(h[at], k);
}

// Link k is heard, and an offer lapses.
fn put_heard(h: &mut [u32], k: usize)
    requires { IsBlock h.old }
    ensures { h.new ≡ heard_on k h.old }
{
    h[place::OFFERED] = 0;
    put_mark(h, place::HEARD, k);
}

// Takes an entry of link k.
fn take_entry(h: &mut [u32], k: usize, e: Entry)
    requires { IsBlock h.old }
    ensures { h.new ≡ heard_in h.old k (collected e) }
{
    if terms::HEADS <= k {
        return;
    }
    put_heard(h, k);
    match e {
        None => {}
        Some(v) => {
            put_mark(h, place::MARKS, k);
            h[place::ENTRIES + k] = fields::unsigned(v);
        }
    }
}

// Takes a list of link k.
fn take_list(h: &mut [u32], k: usize, t: Table)
    requires { IsBlock h.old }
    ensures { h.new ≡ heard_in h.old k (listed t) }
{
    if terms::HEADS <= k {
        return;
    }
    put_heard(h, k);
    put_mark(h, place::LISTED, k);
    h[place::LIST_MARKS + k] = t.marks;
    put_numbers(h, place::LISTS + terms::HEADS * k, &t.entries);
}

// Takes a confession of link k.
fn take_confession(h: &mut [u32], k: usize)
    requires { IsBlock h.old }
    ensures { h.new ≡ heard_in h.old k confessed }
{
    if terms::HEADS <= k {
        return;
    }
    put_heard(h, k);
    put_mark(h, place::CONFESSED, k);
}

// Hears a frame on a link.
pub(crate) fn hear(h: &mut [u32], link: u32, frame: &[u8]) -> u8
    requires { IsBlock h.old }
    ensures { Hears h.old link frame.now result h.new }
{
    let ended = h[place::ENDED] != 0;
    let n = (h[place::N] % 256) as u8;
    let phase = (h[place::PHASE] % 65536) as u16;
    let round = (h[place::ROUND] % 256) as u8;
    let heard = h[place::HEARD];
    let k = link as usize;
    let said = head_hear::said_on(ended, n, phase, round, heard, link, frame);
    let p = frame_codec::parts_of(said);
    if !p.accepted {
        return p.refusal;
    }
    if p.list {
        take_list(h, k, frame_codec::table_in(frame, n));
    } else if p.confession {
        take_confession(h, k);
    } else {
        let entry = p.entry;
        take_entry(h, k, entry);
    }
    0
}

// Hears the frames of a batch that is whole, and answers each where there is room for its answer.
pub(crate) fn hear_entries(h: &mut [u32], batch: &[u8], answers: &mut [u8])
    requires { IsBlock h.old × (is_batch batch.now ≡ true) × (length (deliveries_of batch.now) ≤ length answers.old) }
    ensures { (h.new ≡ heard_each h.old (deliveries_of batch.now))
        × (head_of h.new ≡ hear_each (head_of h.old) (deliveries_of batch.now))
        × (answers.new ≡ answers_to (head_of h.old) (deliveries_of batch.now)
        ++ drop (length (deliveries_of batch.now)) answers.old) }
{
    let mut rest = batch;
    let mut i: usize = 0;
    // Entries differ in length, so each is cut from the front of what remains: no iterator over the bytes gives them.
    while let [link, behind @ ..] = rest {
        let (frame, after) = behind.split_at(head_hear::entry_size(rest) - 1);
        answers[i] = hear(h, *link as u32, frame);
        rest = after;
        i += 1;
    }
}
