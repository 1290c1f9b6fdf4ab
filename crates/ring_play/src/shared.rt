// A confession round of a whole ring, from what the unstruck heads give all receivers: their lists are compared once, and each receiver
// adds what is planted to it alone.
ghost use Rattle.std.specs.Prelude.{◌≡◌, ◌-◌, ◌<◌, ◌≤◌, true, false, slice_index};
ghost use Rattle.marks.specs.Marks.{count_below};
ghost use Rattle.terms.specs.Counting.{Each};
ghost use Rattle.frame_spec.specs.Said.{said};
ghost use Rattle.frame_slots.specs.Slots.{planted_in};
ghost use Rattle.settle_trust.specs.Received.{given_by};
ghost use Rattle.head_spec.specs.Record.{given_of};
ghost use Rattle.ring_play.specs.Memory.{heads};
ghost use Rattle.ring_play.specs.Inner.Planted.{Alike, AllSettled, SettlesAll};
ghost use Rattle.ring_play.specs.Inner.Told.{Counted, Told, SharedBy, settled_by, settled_at, taken_here, EarlierOf};

use crate::round::Two;
use crate::{Stage, codes, round};
use settle_trust::Links;
use terms::{HEADS, Lists, Numbers, Positions, Words};

// Hears a confession frame on link k: a list counts for each entry at which it has the code, a confession is marked.
fn count_frame(
    frame: &[u8],
    n: u8,
    phase: u16,
    k: usize,
    codes: &Numbers,
    same: &mut Words,
    confessed: u32,
) -> u32
    requires { (n ≤ 32) × (k < 32) }
    ensures { Counted n codes.now k (given_of (said n phase 1 k frame.now)) same.old confessed same.new result }
{
    let said = frame_codec::read(frame, n, phase, 1, k as u8);
    let p = frame_codec::parts_of(said);
    if p.list {
        let table = frame_codec::table_in(frame, n);
        let entries = table.entries;
        codes::tally(table.marks, &entries, codes, same, n as usize);
    } else if p.confession {
        return marks::with_mark(confessed, k);
    }
    confessed
}

// Hears what is planted from the struck heads to receiver i. Answers which of them confessed.
fn count_planted(
    s: Stage,
    planted: &[u8],
    lengths: &[u8],
    i: usize,
    codes: &Numbers,
    same: &mut Words,
) -> u32
    requires { (i < 48) × Each (heads s) (λ j. slice_index same.old j ≤ 32) }
    ensures { Told s (planted_in planted.now lengths.now) i codes.now same.old same.new result }
{
    let n = round::head_count(s);
    let mut confessed: u32 = 0;
    for k in round::struck_heads(s) {
        let frame = frame_slots::planted(planted, lengths, k as u8, i as u8);
        confessed = count_frame(frame, n, s.phase, k, codes, same, confessed);
    }
    confessed
}

// How many lists are needed if these links confessed too.
fn need_after(need: u32, confessed: u32, n: usize) -> u32
    ensures { result ≡ need - count_below confessed n }
{
    let all = need as usize;
    let c = marks::count_below(confessed, n);
    if all <= c { 0 } else { (all - c) as u32 }
}

// The position that a receiver settles, by what it counted, how many lists are needed of what all hear, and who confessed to it. `earlier`
// was settled before, from the codes `settled`: a receiver with the same trusted entries settles the same.
fn position_counted(
    s: Stage,
    codes: &Numbers,
    same: &Words,
    need: u32,
    confessed: u32,
    settled: &mut Numbers,
    earlier: Option<i32>,
) -> i32
    requires { EarlierOf s earlier settled.old }
    ensures position { result ≡ settled_by s (taken_here s need codes.now same.now confessed) }
    ensures codes { result ≡ settled_at s settled.new }
{
    let n = round::head_count(s) as usize;
    let left = need_after(need, confessed, n);
    if codes::trust_codes(codes, same, left, confessed, n, settled) {
        if let Some(position) = earlier {
            return position;
        }
    }
    codes::settle_codes(s, settled)
}

// Stores the new position of each unstruck receiver.
fn fill_positions(
    s: Stage,
    planted: &[u8],
    lengths: &[u8],
    codes: &Numbers,
    counts: &Words,
    need: u32,
    positions: &mut Positions,
)
    requires { SharedBy s need codes.now counts.now }
    ensures { (S : SharedBy s need codes.now counts.now) → Alike s S.given
        → AllSettled s S.given (planted_in planted.now lengths.now) positions.old positions.new }
{
    let end = round::receiver_end(s);
    let mut settled = [0i32; HEADS];
    let mut earlier: Option<i32> = None;
    let mut two = Two {
        newer: None,
        older: None,
    };
    for i in 0..end {
        if round::settles(s, i) {
            match round::same_of_two(s, planted, lengths, i, two) {
                Some(m) => {
                    positions[i] = positions[m];
                    two = round::remember(two, Some(m), i);
                }
                None => {
                    let mut same = *counts;
                    let confessed = count_planted(s, planted, lengths, i, codes, &mut same);
                    let position = position_counted(
                        s,
                        codes,
                        &same,
                        need,
                        confessed,
                        &mut settled,
                        earlier,
                    );
                    earlier = Some(position);
                    positions[i] = position;
                    two = round::remember(two, None, i);
                }
            }
        }
    }
}

// Stores the new position of each unstruck receiver, from what the links give all of them and from what is planted. Answers no, and leaves
// the positions as they were, if what is given to all does not decide which positions can be trusted. When it answers no is free, and shows
// in the time alone.
pub(crate) fn settle_all(
    s: Stage,
    rows: &Lists,
    links: Links,
    planted: &[u8],
    lengths: &[u8],
    positions: &mut Positions,
) -> bool
    ensures { SettlesAll result s (given_by links rows.now) (planted_in planted.now lengths.now) positions.old positions.new }
{
    let n = round::head_count(s);
    let struck = marks::count_below(s.struck, n as usize);
    let mut codes = [0i32; HEADS];
    let mut counts = [0u32; HEADS];
    if !codes::share(rows, links, n, s.f, struck, &mut codes, &mut counts) {
        return false;
    }
    let need = settle_trust::lists_needed(links.confessed, n, s.f) as u32;
    fill_positions(s, planted, lengths, &codes, &counts, need, positions);
    true
}
