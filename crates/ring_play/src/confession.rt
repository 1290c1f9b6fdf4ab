// A confession round of a whole ring, played on the heads' memory: each receiver, head or listener, that is not struck settles by the same
// functions that the head's calls are made of. What all unstruck heads say is read once.
ghost use Rattle.std.specs.Prelude.{◌≡◌, ℕ, ◌<◌, cond, List, pos, slice_index_or};
ghost use Rattle.frame_spec.specs.Said.{said};
ghost use Rattle.settle_trust.specs.Received.{given_by};
ghost use Rattle.ring_play.specs.Memory.{settles, Sayable, new_position};
ghost use Rattle.frame_slots.specs.Slots.{planted_in};
ghost use Rattle.ring_play.specs.Inner.Confession.{links_with, rows_with, Received, RowsKept, Unplanted, OwnLinks};
ghost use Rattle.ring_play.specs.Inner.Planted.{given_or_planted, position_settled, AllSettled};

use crate::{Stage, round, shared};
use settle_trust::Links;
use terms::{Lists, Positions, Words};

// Which of the unstruck heads confess and which give a list: a healed head a confession, any other its list.
fn links_of(s: Stage, marks: &Words) -> Links
    ensures { OwnLinks s marks.now result }
{
    let n = round::head_count(s) as usize;
    let mut confessed: u32 = 0;
    let mut listed: u32 = 0;
    for k in 0..n {
        if !marks::marked(s.struck, k) {
            if marks::marked(s.before, k) {
                confessed = marks::with_mark(confessed, k);
            } else {
                listed = marks::with_mark(listed, k);
            }
        }
    }
    Links {
        confessed,
        listed,
        marks: *marks,
    }
}

// Hears a confession frame on link k: a list goes to its row, a confession is marked.
fn hear(links: Links, rows: &mut Lists, k: usize, frame: &[u8], n: u8, phase: u16) -> Links
    requires { k < 32 }
    ensures links { result ≡ links_with links k (said n phase 1 k frame.now) }
    ensures rows { rows.new ≡ rows_with rows.old k (said n phase 1 k frame.now) }
{
    let said = frame_codec::read(frame, n, phase, 1, k as u8);
    let p = frame_codec::parts_of(said);
    let mut out = links;
    if p.list {
        let table = frame_codec::table_in(frame, n);
        let entries = table.entries;
        rows[k] = entries;
        out.marks[k] = table.marks;
        out.listed = marks::with_mark(out.listed, k);
    } else if p.confession {
        out.confessed = marks::with_mark(out.confessed, k);
    }
    out
}

// Hears what is planted from the struck heads to receiver i, on links that gave nothing. Their rows may hold what was planted to another:
// no one reads them.
fn hear_planted(
    s: Stage,
    planted: &[u8],
    lengths: &[u8],
    i: usize,
    base: Links,
    rows: &mut Lists,
) -> Links
    requires { (i < 48) × Unplanted s base rows.old }
    ensures given { Received result rows.new (given_or_planted s (given_by base rows.old) (planted_in planted.now lengths.now) i) }
    ensures kept { RowsKept base rows.old rows.new }
{
    let n = round::head_count(s);
    let mut links = base;
    for k in round::struck_heads(s) {
        let frame = frame_slots::planted(planted, lengths, k as u8, i as u8);
        links = hear(links, rows, k, frame, n, s.phase);
    }
    links
}

// The lowest link that gave a list; 0 if none did.
fn first_listed(marks: u32) -> usize
    ensures { result < 32 }
{
    let k = u32::trailing_zeros(marks);
    if k < 32 { k as usize } else { 0 }
}

// The position that a receiver settles from what its links gave; 0 if it is refused.
fn settled(s: Stage, rows: &Lists, links: Links, reference: usize) -> i32
    requires { reference < 32 }
    ensures { result ≡ position_settled s (given_by links rows.now) }
{
    let n = round::head_count(s);
    let up = terms::rounds_up(s.phase);
    round::position_in(settle_position::settle_by(rows, links, reference, n, s.f, up))
}

// The new position of receiver i. The reference is a list that all receivers hear.
fn position_for(
    s: Stage,
    planted: &[u8],
    lengths: &[u8],
    i: usize,
    base: Links,
    rows: &mut Lists,
) -> i32
    requires { (i < 48) × Unplanted s base rows.old }
    ensures position { result ≡ position_settled s (given_or_planted s (given_by base rows.old) (planted_in planted.now lengths.now) i) }
    ensures kept { RowsKept base rows.old rows.new }
{
    let links = hear_planted(s, planted, lengths, i, base, rows);
    settled(s, rows, links, first_listed(base.listed))
}

// Stores the new position of each unstruck receiver.
fn fill_positions(
    s: Stage,
    planted: &[u8],
    lengths: &[u8],
    base: Links,
    rows: &mut Lists,
    positions: &mut Positions,
)
    requires { Unplanted s base rows.old }
    ensures { (i : ℕ) → slice_index_or positions.new i (pos 0)
        ≡ cond (settles s i)
        (position_settled s (given_or_planted s (given_by base rows.old) (planted_in planted.now lengths.now) i))
        (slice_index_or positions.old i (pos 0)) }
{
    let end = round::receiver_end(s);
    for i in 0..end {
        if round::settles(s, i) {
            let position = position_for(s, planted, lengths, i, base, rows);
            positions[i] = position;
        }
    }
}

// Settles all receivers if no head is struck: they hear the same, so once.
fn settle_quiet(s: Stage, lists: &Lists, links: Links, positions: &mut Positions)
    ensures { s.struck ≡ 0 → (plant : ℕ → ℕ → List ℕ)
        → AllSettled s (given_by links lists.now) plant positions.old positions.new }
{
    let position = settled(s, lists, links, first_listed(links.listed));
    round::fill_same(s, position, positions);
}

// The same lists, to be changed.
fn copied(lists: &Lists) -> Lists
    ensures { result ≡ lists.now }
{
    *lists
}

// The same from a copy of the lists. It is never inlined: the copy's place is cleared wherever it is entered, and few rounds come here.
#[inline(never)]
fn fill_each(
    s: Stage,
    planted: &[u8],
    lengths: &[u8],
    base: Links,
    lists: &Lists,
    positions: &mut Positions,
)
    requires { Unplanted s base lists.now }
    ensures { (i : ℕ) → slice_index_or positions.new i (pos 0)
        ≡ cond (settles s i)
        (position_settled s (given_or_planted s (given_by base lists.now) (planted_in planted.now lengths.now) i))
        (slice_index_or positions.old i (pos 0)) }
{
    let mut rows = copied(lists);
    fill_positions(s, planted, lengths, base, &mut rows, positions);
}

// A confession round: the new position of each receiver that is not struck, from the lists, which are such that a frame can say them, and
// what is planted. The other positions stay as they were. An honest frame reads back as what it says, so none is written.
pub fn confess(
    s: Stage,
    marks: &Words,
    lists: &Lists,
    planted: &[u8],
    lengths: &[u8],
    positions: &mut Positions,
)
    ensures { Sayable s marks.now lists.now → (i : ℕ) → slice_index_or positions.new i (pos 0)
        ≡ cond (settles s i)
        (new_position s marks.now lists.now (planted_in planted.now lengths.now) i)
        (slice_index_or positions.old i (pos 0)) }
{
    let links = links_of(s, marks);
    if s.struck == 0 {
        settle_quiet(s, lists, links, positions);
        return;
    }
    if shared::settle_all(s, lists, links, planted, lengths, positions) {
        return;
    }
    fill_each(s, planted, lengths, links, lists, positions);
}
