// A block as the record that it is, with what stands beside the head and the offer: what is read from it and put into it.
ghost use Rattle.std.specs.Prelude.{◌≡◌, ◌∷◌, ◌+◌, ◌%◌, ◌≤◌, length, pos};
ghost use Rattle.std.proofs.Math.Seq.{paste};
ghost use Rattle.fields.specs.Bytes.{signed_of, word_of};
ghost use Rattle.head_spec.specs.Record.{no_entries, opened};
ghost use Rattle.terms.specs.Refusals.{leaves};
ghost use Rattle.head_spec.specs.Seats.{family_in};
ghost use Rattle.head_lent.specs.Answers.{held_number, held_or, range_number};
ghost use Rattle.head_spec.specs.Kept.{Offer};
ghost use Rattle.head_c.specs.Places as place;
ghost use Rattle.head_c.specs.Blocks.{IsBlock, up_to, held_entry, range_in, numbers_at, seat_of, head_of};
ghost use Rattle.head_c.specs.Blocks.{words_of, kept_of, family_number, seat_words, with_head, registers_of, with_registers, offer_of, with_offer, without_offer};
ghost use Rattle.head_c.specs.Steps.{bare};

use crate::place;
use head_spec::{Head, LastKept, Offer, Seat};
use head_window::Registers;
use settle_midpoint::Kept;
use settle_trust::Links;
use std::array;
use terms::{Entry, Family, HEADS, Table};

// ---- The record that a block is.

// The family.
fn family_in(word: u32) -> Family
    ensures { result ≡ family_in word }
{
    if word == 0 {
        return Family::TwoRounds;
    }
    Family::OneRound
}

// A position, if one is held.
fn entry_in(held: u32, position: u32) -> Entry
    ensures { result ≡ held_entry held (signed_of position) }
{
    if held == 0 {
        return None;
    }
    Some(fields::signed(position))
}

// A kept range, if one is held.
fn range_in(ranged: u32, low: u32, high: u32, trim: u32, position: u32) -> LastKept
    ensures { result ≡ range_in ranged (signed_of low) (signed_of high) (trim % 256) (signed_of position) }
{
    if ranged == 0 {
        return None;
    }
    let kept = Kept {
        low: fields::signed(low),
        high: fields::signed(high),
        trim: (trim % 256) as u8,
        position: fields::signed(position),
    };
    Some(kept)
}

// The seat.
pub(crate) fn seat_in(h: &[u32]) -> Seat
    requires { IsBlock h.now }
    ensures { result ≡ seat_of h.now }
{
    let family = family_in(h[place::FAMILY]);
    let position = entry_in(h[place::HELD], h[place::POSITION]);
    let kept = range_in(
        h[place::RANGED],
        h[place::LOW],
        h[place::HIGH],
        h[place::TRIM],
        h[place::MIDDLE],
    );
    Seat {
        family,
        n: (h[place::N] % 256) as u8,
        f: (h[place::F] % 256) as u8,
        number: (h[place::NUMBER] % 256) as u8,
        phase: (h[place::PHASE] % 65536) as u16,
        round: (h[place::ROUND] % 256) as u8,
        healed: h[place::HEALED] != 0,
        ended: h[place::ENDED] != 0,
        position,
        kept,
        since: (h[place::SINCE] % 256) as u8,
    }
}

// The 32 numbers from a word on.
fn numbers_in(h: &[u32], from: usize) -> [i32; HEADS]
    requires { from + 32 ≤ length h.now }
    ensures { result ≡ numbers_at h.now from }
{
    array::from_fn(|j| fields::signed(h[from + j]))
}

// The list.
pub(crate) fn list_in(h: &[u32]) -> Table
    requires { IsBlock h.now }
    ensures { result ≡ (head_of h.now).list }
{
    let entries = numbers_in(h, place::ENTRIES);
    Table {
        marks: h[place::MARKS],
        entries,
    }
}

// Which links confessed or gave a list, and the mark words of the lists.
pub(crate) fn links_in(h: &[u32]) -> Links
    requires { IsBlock h.now }
    ensures { result ≡ (head_of h.now).links }
{
    let mut marks = [0u32; HEADS];
    for k in 0..HEADS {
        marks[k] = h[place::LIST_MARKS + k];
    }
    Links {
        confessed: h[place::CONFESSED],
        listed: h[place::LISTED],
        marks,
    }
}

// The record with nothing heard that has the block's seat and list. No call but hearing and closing looks at what else was heard.
pub(crate) fn bare_in(h: &[u32]) -> Head
    requires { IsBlock h.now }
    ensures { result ≡ bare (head_of h.now) }
{
    let seat = seat_in(h);
    let list = list_in(h);
    head_calls::opened(seat, list)
}

// ---- A record put into a block.

// Puts 32 numbers from a word on.
pub(crate) fn put_numbers(h: &mut [u32], from: usize, numbers: &[i32; HEADS])
    requires { from + 32 ≤ length h.old }
    ensures { h.new ≡ paste h.old from (words_of numbers.now) 32 }
{
    for (j, v) in numbers.iter().enumerate() {
        h[from + j] = fields::unsigned(*v);
    }
}

// Puts the list.
fn put_list(h: &mut [u32], list: Table)
    requires { IsBlock h.old }
    ensures { h.new ≡ paste h.old place.marks (list.marks ∷ words_of list.entries) 33 }
{
    h[place::MARKS] = list.marks;
    put_numbers(h, place::ENTRIES, &list.entries);
}

// Whether an entry is a position.
fn is_held(e: Entry) -> u32
    ensures { result ≡ held_number e }
{
    match e {
        None => 0,
        Some(_) => 1,
    }
}

// The word of its number, 0 if it is null.
fn word_of(e: Entry) -> u32
    ensures { result ≡ word_of (held_or e (pos 0)) }
{
    match e {
        None => 0,
        Some(v) => fields::unsigned(v),
    }
}

// Whether a kept range is held.
fn is_ranged(kept: LastKept) -> u32
    ensures { result ≡ range_number kept }
{
    match kept {
        None => 0,
        Some(_) => 1,
    }
}

// It, with zeros if none is held.
fn kept_of(held: LastKept) -> Kept
    ensures { result ≡ kept_of held }
{
    match held {
        None => Kept {
            low: 0,
            high: 0,
            trim: 0,
            position: 0,
        },
        Some(kept) => kept,
    }
}

// The word of a family.
fn family_number(family: Family) -> u32
    ensures { result ≡ family_number family }
{
    match family {
        Family::TwoRounds => 0,
        Family::OneRound => 1,
    }
}

// Puts the seat.
pub(crate) fn put_seat(h: &mut [u32], s: Seat)
    requires { IsBlock h.old }
    ensures { h.new ≡ paste h.old 0 (seat_words s) 16 }
{
    let family = s.family;
    let e = s.position;
    let range = s.kept;
    let kept = kept_of(range);
    h[place::N] = s.n as u32;
    h[place::F] = s.f as u32;
    h[place::NUMBER] = s.number as u32;
    h[place::PHASE] = s.phase as u32;
    h[place::ROUND] = s.round as u32;
    h[place::HEALED] = s.healed as u32;
    h[place::ENDED] = s.ended as u32;
    h[place::HELD] = is_held(e);
    h[place::POSITION] = word_of(e);
    h[place::RANGED] = is_ranged(range);
    h[place::LOW] = fields::unsigned(kept.low);
    h[place::HIGH] = fields::unsigned(kept.high);
    h[place::TRIM] = kept.trim as u32;
    h[place::MIDDLE] = fields::unsigned(kept.position);
    h[place::FAMILY] = family_number(family);
    h[place::SINCE] = s.since as u32;
}

// Clears what the links gave: who confessed, who gave a list, and the mark words. A list that no link gave is no part of the record, so
// the lists stay.
pub(crate) fn clear_links(h: &mut [u32])
    requires { IsBlock h.old }
    ensures { h.new ≡ paste h.old place.confessed (up_to 34 (λ _. 0)) 34 }
{
    h[place::CONFESSED..place::LISTS].fill(0);
}

// Puts a record with nothing heard, as start, restart and closing make it.
fn put_opened(h: &mut [u32], seat: Seat, list: Table)
    requires { IsBlock h.old }
    ensures { h.new ≡ with_head (opened seat list) h.old }
{
    put_seat(h, seat);
    h[place::HEARD] = 0;
    put_list(h, list);
    clear_links(h);
}

// ---- What stands beside the head.

pub(crate) fn registers_in(h: &[u32]) -> Registers
    requires { IsBlock h.now }
    ensures { result ≡ registers_of h.now }
{
    Registers {
        events: h[place::EVENTS],
        mask: h[place::MASK],
    }
}

pub(crate) fn put_registers(h: &mut [u32], b: Registers)
    requires { IsBlock h.old }
    ensures { h.new ≡ with_registers b h.old }
{
    h[place::EVENTS] = b.events;
    h[place::MASK] = b.mask;
}

// ---- The offer beside it.

pub(crate) fn offer_in(h: &[u32]) -> Offer
    requires { IsBlock h.now }
    ensures { result ≡ offer_of h.now }
{
    if h[place::OFFERED] == 0 {
        return None;
    }
    Some(Kept {
        low: fields::signed(h[place::OFFER_LOW]),
        high: fields::signed(h[place::OFFER_HIGH]),
        trim: (h[place::OFFER_TRIM] % 256) as u8,
        position: fields::signed(h[place::OFFER_MIDDLE]),
    })
}

pub(crate) fn put_offer(h: &mut [u32], kept: Kept)
    requires { IsBlock h.old }
    ensures { h.new ≡ with_offer (Some kept) h.old }
{
    h[place::OFFERED] = 1;
    h[place::OFFER_LOW] = fields::unsigned(kept.low);
    h[place::OFFER_HIGH] = fields::unsigned(kept.high);
    h[place::OFFER_TRIM] = kept.trim as u32;
    h[place::OFFER_MIDDLE] = fields::unsigned(kept.position);
}

// Ends an offer after a call that answers this number, unless it is refused.
fn end_offer(h: &mut [u32], number: u8)
    requires { IsBlock h.old }
    ensures { h.new ≡ without_offer number h.old }
{
    if number == 0 {
        h[place::OFFERED] = 0;
    }
}

// Puts a record with nothing heard and no entries, in this seat, if the number is 0.
fn put_seated(h: &mut [u32], number: u8, seat: Seat)
    requires { IsBlock h.old }
    ensures { h.new ≡ leaves number (with_head (opened seat no_entries) h.old) h.old }
{
    if number == 0 {
        put_opened(h, seat, head_calls::no_entries());
    }
}

// Leaves what a start, a restart or an adoption makes that answers this number: the record, what stands beside the head, and no offer.
pub(crate) fn put_fresh(h: &mut [u32], number: u8, seat: Seat, b: Registers)
    requires { IsBlock h.old }
    ensures { h.new ≡ without_offer number (with_registers b (leaves number (with_head (opened seat no_entries) h.old) h.old)) }
{
    put_seated(h, number, seat);
    put_registers(h, b);
    end_offer(h, number);
}
