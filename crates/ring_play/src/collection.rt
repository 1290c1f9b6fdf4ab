// The rounds of a whole ring in which heads send positions, played on the heads' memory: a collection round, which leaves the list of each
// head that is not struck, and a phase of one round, which leaves a position. What all unstruck heads say is heard once.
ghost use Rattle.std.specs.Prelude.{◌≡◌, ℕ, ◌<◌, cond, List, pos, slice_index_or};
ghost use Rattle.terms.specs.declared.Table.{Table};
ghost use Rattle.entries.specs.Tables.{table_at, table_of, mark, value_of};
ghost use Rattle.frame_spec.specs.Said.{said};
ghost use Rattle.head_spec.specs.Record.{heard_entry};
ghost use Rattle.ring_play.specs.Memory.{heads, hears, settles, InRange, list_entry, row_in, heard_position};
ghost use Rattle.convergence.specs.Settling.{ordered};
ghost use Rattle.settle_midpoint.specs.Orders.{order_of};
ghost use Rattle.frame_slots.specs.Slots.{planted_in};
ghost use Rattle.ring_play.specs.Inner.Collection.{is_position_frame, own_entry, sent_by, heard_of, heard_with, Shared, position_from};

use crate::{Stage, round, sides};
use frame_check::Kind;
use settle_midpoint::Order;
use terms::{Entry, Family, HEADS, Lists, Numbers, Positions, Table, Words};

// Whether a frame is that of a position, from head k in this phase. The position may be out of range.
fn is_position_frame(frame: &[u8], phase: u16, k: u8) -> bool
    ensures { result ≡ is_position_frame phase k frame.now }
{
    if frame.len() != 11 {
        return false;
    }
    if fields::half_at(frame, 0) != 11 {
        return false;
    }
    if fields::half_at(frame, 2) != Kind::Position as u16 {
        return false;
    }
    if fields::byte_at(frame, 4) != k {
        return false;
    }
    fields::half_at(frame, 5) == phase
}

// The entry that a collection frame says; null if it says none. A refused frame, silence and a frame of another round are null alike,
// so only the frame of a position is told apart.
fn entry_in(frame: &[u8], phase: u16, k: u8) -> Entry
    ensures { (n : ℕ) → result ≡ heard_entry (said n phase 0 k frame.now) }
{
    if is_position_frame(frame, phase, k) {
        let word = fields::word_at(frame, 7);
        if entries::is_position_word(word) {
            return Some(fields::signed(word));
        }
    }
    None
}

// What head k sends: a healed head silence, a healthy one its position.
fn own_entry(s: Stage, positions: &Positions, k: usize) -> Entry
    requires { k < 32 }
    ensures { result ≡ own_entry s positions.now k }
{
    if marks::marked(s.before, k) {
        return None;
    }
    Some(positions[k])
}

// The mark of an entry.
fn mark_of(e: Entry) -> u32
    ensures { result ≡ mark e }
{
    e.is_some() as u32
}

// The value of an entry, 0 if it is null.
fn value_of(e: Entry) -> i32
    ensures { result ≡ value_of e }
{
    e.unwrap_or(0)
}

// What the unstruck heads send, with null for the struck ones.
fn entries_sent(s: Stage, positions: &Positions) -> Table
    ensures { result ≡ table_of (heads s) (sent_by s positions.now) }
{
    let n = round::head_count(s) as usize;
    let mut marks: u32 = 0;
    let mut entries = [0i32; HEADS];
    for k in 0..n {
        let e = if marks::marked(s.struck, k) {
            None
        } else {
            own_entry(s, positions, k)
        };
        marks += mark_of(e) << k;
        entries[k] = value_of(e);
    }
    Table { marks, entries }
}

// What receiver i hears of head k, which is struck: what is planted.
pub(crate) fn entry_planted(s: Stage, planted: &[u8], lengths: &[u8], k: usize, i: usize) -> Entry
    requires { (k < 32) × (i < 48) }
    ensures { result ≡ heard_of s (planted_in planted.now lengths.now k i) k }
{
    let frame = frame_slots::planted(planted, lengths, k as u8, i as u8);
    entry_in(frame, s.phase, k as u8)
}

// The list of receiver i: what all hear, with what is planted to it. Answers its marks, from those that all hear, and puts its numbers among
// theirs.
fn list_for(
    s: Stage,
    sent: u32,
    planted: &[u8],
    lengths: &[u8],
    i: usize,
    entries: &mut Numbers,
) -> u32
    requires { (i < 48) × Shared s (record { marks = sent; entries = entries.old }) }
    ensures { (S : Shared s (record { marks = sent; entries = entries.old }))
        → ◌≡◌ {A = Table} (record { marks = result; entries = entries.new })
        (table_of (heads s) (heard_with s S.entry (planted_in planted.now lengths.now) i)) }
{
    let mut marks = sent;
    for k in round::struck_heads(s) {
        let e = entry_planted(s, planted, lengths, k, i);
        marks += mark_of(e) << k;
        entries[k] = value_of(e);
    }
    marks
}

// Stores the list of each unstruck head.
fn fill_lists(
    s: Stage,
    sent: Table,
    planted: &[u8],
    lengths: &[u8],
    marks: &mut Words,
    lists: &mut Lists,
)
    requires { Shared s sent }
    ensures { (S : Shared s sent) (i : ℕ) → row_in marks.new lists.new i
        ≡ cond (hears s i)
        (table_of (heads s) (heard_with s S.entry (planted_in planted.now lengths.now) i))
        (row_in marks.old lists.old i) }
{
    let n = round::head_count(s) as usize;
    let entries = sent.entries;
    for i in 0..n {
        if !marks::marked(s.struck, i) {
            lists[i] = entries;
            marks[i] = list_for(s, sent.marks, planted, lengths, i, &mut lists[i]);
        }
    }
}

// A collection round: the list of each head that is not struck, from the positions, which are in range, and what is planted. The other
// lists stay as they were. An honest frame reads back as what it says, so none is written.
pub fn collect(
    s: Stage,
    positions: &Positions,
    planted: &[u8],
    lengths: &[u8],
    marks: &mut Words,
    lists: &mut Lists,
)
    ensures { InRange s positions.now → (i : ℕ) → row_in marks.new lists.new i
        ≡ cond (hears s i)
        (table_of (heads s) (list_entry s positions.now (planted_in planted.now lengths.now) i))
        (row_in marks.old lists.old i) }
{
    let sent = entries_sent(s, positions);
    fill_lists(s, sent, planted, lengths, marks, lists);
}

// ---- A phase of one round (document 02, A9): heads send positions as in a collection round, and each receiver settles from what it hears.

// The position that a receiver settles from its list; 0 if it is refused.
fn position_of(s: Stage, list: Table) -> i32
    ensures { result ≡ position_from s (table_at list) }
{
    let n = round::head_count(s);
    let up = terms::rounds_up(s.phase);
    round::position_in(settle_midpoint::settle_table(list, Family::OneRound, n, s.f, up))
}

// The new position of receiver i: from what all hear, given as a table and in order, and what is planted to it.
fn position_for(
    s: Stage,
    sent: Table,
    order: Order,
    planted: &[u8],
    lengths: &[u8],
    i: usize,
) -> i32
    requires { (i < 48) × Shared s sent × (order ≡ order_of (ordered (heads s) (table_at sent))) }
    ensures { (S : Shared s sent)
        → result ≡ position_from s (table_at (table_of (heads s) (heard_with s S.entry (planted_in planted.now lengths.now) i))) }
{
    let c = sides::count_sides(s, order, planted, lengths, i);
    if sides::decides(s, order.len, c) {
        return sides::position_inside(s, order, c);
    }
    let mut entries = sent.entries;
    let marks = list_for(s, sent.marks, planted, lengths, i, &mut entries);
    position_of(s, Table { marks, entries })
}

// Stores the new position of each receiver that is not struck.
fn fill_positions(
    s: Stage,
    sent: Table,
    order: Order,
    planted: &[u8],
    lengths: &[u8],
    positions: &mut Positions,
)
    requires { Shared s sent × (order ≡ order_of (ordered (heads s) (table_at sent))) }
    ensures { (S : Shared s sent) (i : ℕ) → slice_index_or positions.new i (pos 0)
        ≡ cond (settles s i)
        (position_from s (table_at (table_of (heads s) (heard_with s S.entry (planted_in planted.now lengths.now) i))))
        (slice_index_or positions.old i (pos 0)) }
{
    let end = round::receiver_end(s);
    for i in 0..end {
        if round::settles(s, i) {
            let position = position_for(s, sent, order, planted, lengths, i);
            positions[i] = position;
        }
    }
}

// Settles all receivers if no head is struck: they hear the same, so once.
fn conclude_quiet(s: Stage, sent: Table, positions: &mut Positions)
    ensures { s.struck ≡ 0 → (S : Shared s sent) (plant : ℕ → ℕ → List ℕ) (i : ℕ) → slice_index_or positions.new i (pos 0)
        ≡ cond (settles s i)
        (position_from s (table_at (table_of (heads s) (heard_with s S.entry plant i))))
        (slice_index_or positions.old i (pos 0)) }
{
    let position = position_of(s, sent);
    round::fill_same(s, position, positions);
}

// A phase of one round: the new position of each receiver that is not struck, from the positions, which are in range, and what is planted.
// The other positions stay as they were.
pub fn conclude(s: Stage, positions: &mut Positions, planted: &[u8], lengths: &[u8])
    ensures { InRange s positions.old → (i : ℕ) → slice_index_or positions.new i (pos 0)
        ≡ cond (settles s i)
        (heard_position s positions.old (planted_in planted.now lengths.now) i)
        (slice_index_or positions.old i (pos 0)) }
{
    let sent = entries_sent(s, positions);
    if s.struck == 0 {
        conclude_quiet(s, sent, positions);
        return;
    }
    let order = settle_midpoint::order_of(sent, round::head_count(s));
    fill_positions(s, sent, order, planted, lengths, positions);
}
