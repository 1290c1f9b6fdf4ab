// What all kinds of rounds need: how many heads and listeners are played, who settles, and to whom the same is planted.
ghost use Rattle.std.specs.Prelude.{◌≡◌, ℕ, ◌-◌, ◌<◌, ◌≤◌, true, ◌↔◌, pos, if◌then◌else◌, slice_index_or, Some};
ghost use Rattle.terms.specs.Refused.{numbered};
ghost use Rattle.frame_slots.specs.Slots.{planted_in};
ghost use Rattle.ring_play.specs.Memory.{heads, listeners, receiver_end, settles, SamePlanted, position_of};
ghost use Rattle.ring_play.specs.declared.Stage.{Stage};
ghost use Rattle.ring_play.specs.Inner.Before.{SettlesBefore, AsBefore};
ghost use Rattle.ring_play.specs.Inner.Struck.{NextStruck};

use crate::Stage;
use settle_midpoint::Kept;
use terms::{Positions, Refusal};

// How many heads are played.
pub(crate) fn head_count(s: Stage) -> u8
    ensures { result ≡ heads s }
{
    terms::at_most_32(s.n as usize) as u8
}

// How many listeners are played.
pub(crate) fn listener_count(s: Stage) -> u8
    ensures { result ≡ listeners s }
{
    if s.listeners < 16 { s.listeners } else { 16 }
}

// The number after the last receiver that is played: without listeners, how many heads are.
pub(crate) fn receiver_end(s: Stage) -> usize
    ensures { result ≡ receiver_end s }
{
    let m = listener_count(s) as usize;
    if m == 0 {
        return head_count(s) as usize;
    }
    terms::FIRST_LISTENER + m
}

// The first struck head at k or above; if there is none, how many heads are played.
pub(crate) fn next_struck(s: Stage, k: usize) -> usize
    requires { k ≤ heads s }
    ensures { NextStruck s k result }
{
    let n = head_count(s) as usize;
    if n <= k {
        return n;
    }
    let j = k + u32::trailing_zeros(s.struck >> k) as usize;
    if j < n { j } else { n }
}

// The struck heads that are played, from the lowest up.
#[derive(Drop)]
pub(crate) struct StruckHeads {
    stage: Stage,
    from: usize,
    ghost within: { from ≤ heads stage },
}

// The struck heads of a round.
pub(crate) fn struck_heads(s: Stage) -> StruckHeads
    ensures { (result.stage ≡ s) × (result.from ≡ 0) }
{
    StruckHeads { stage: s, from: 0 }
}

impl Iterator for StruckHeads {
    ghost use Rattle.std.specs.Iterator.{at_most};
    ghost use Rattle.ring_play.specs.Inner.Walk.{GivesStruck};

    type Item = usize;

    ghost next_gives = { GivesStruck };

    ghost remaining = { λ h. at_most (heads h.stage - h.from) };

    fn next(&mut self) -> Option<usize> {
        let k = next_struck(self.stage, self.from);
        if head_count(self.stage) as usize <= k {
            return None;
        }
        self.from = k + 1;
        Some(k)
    }
}

// The position that settling answers; 0 if it refuses.
pub(crate) fn position_in(answer: Result<Kept, Refusal>) -> i32
    ensures { result ≡ position_of (numbered answer) }
{
    match answer {
        Err(_) => 0,
        Ok(kept) => kept.position,
    }
}

// Whether receiver i is played and not struck.
pub(crate) fn settles(s: Stage, i: usize) -> bool
    ensures { result ≡ settles s i }
{
    if i < terms::FIRST_LISTENER {
        if i < head_count(s) as usize {
            return !marks::marked(s.struck, i);
        }
        return false;
    }
    let j = i - terms::FIRST_LISTENER;
    if j < listener_count(s) as usize {
        return !marks::marked(s.away, j);
    }
    false
}

// Whether the same is planted from each struck head to receivers i and m: what the one hears of them, the other does too.
#[inline(always)]
pub(crate) fn is_same_planted(s: Stage, planted: &[u8], lengths: &[u8], i: usize, m: usize) -> bool
    requires { (i < 48) × (m < 48) }
    ensures { (result ≡ true) ↔ SamePlanted s (planted_in planted.now lengths.now) i m }
{
    for k in struck_heads(s) {
        if !frame_slots::is_alike(planted, lengths, k as u8, i as u8, m as u8) {
            return false;
        }
    }
    true
}

// The receiver `before`, which settles before i, if the same is planted to both: what is made of what the one hears, is made of what the
// other hears. To answer none is free, and shows in the time alone. It is inlined, since it is asked twice for each receiver.
#[inline(always)]
pub(crate) fn same_before(
    s: Stage,
    planted: &[u8],
    lengths: &[u8],
    i: usize,
    before: Option<usize>,
) -> Option<usize>
    requires { (i < 48) × SettlesBefore s i before }
    ensures { AsBefore s (planted_in planted.now lengths.now) i result }
{
    match before {
        Some(m) if is_same_planted(s, planted, lengths, i, m) => before,
        _ => None,
    }
}

// The last two receivers that settled, told apart by what is planted to them if that can be: liars tell two groups two things. None before
// there are so many.
#[derive(Clone, Copy)]
pub(crate) struct Two {
    pub newer: Option<usize>,
    pub older: Option<usize>,
}

// The one of the two to which the same is planted as to receiver i. To answer none is free, and shows in the time alone.
pub(crate) fn same_of_two(
    s: Stage,
    planted: &[u8],
    lengths: &[u8],
    i: usize,
    two: Two,
) -> Option<usize>
    requires { (i < 48) × SettlesBefore s i two.newer × SettlesBefore s i two.older }
    ensures { AsBefore s (planted_in planted.now lengths.now) i result }
{
    let newer = same_before(s, planted, lengths, i, two.newer);
    newer.or_else(|| same_before(s, planted, lengths, i, two.older))
}

// Receiver i is the newer one now. `found` is the one of the two that was told as it is: the other one stays. Which one stays is free, and
// shows in the time alone.
pub(crate) fn remember(two: Two, found: Option<usize>, i: usize) -> Two
    ensures { (result.newer ≡ Some i)
        × ((s : Stage) (k : ℕ) → SettlesBefore s k two.newer → SettlesBefore s k two.older → SettlesBefore s k result.older) }
{
    let older = if found == two.newer {
        two.older
    } else {
        two.newer
    };
    Two {
        newer: Some(i),
        older,
    }
}

// Stores one position for each unstruck receiver.
pub(crate) fn fill_same(s: Stage, position: i32, positions: &mut Positions)
    ensures { (i : ℕ) → slice_index_or positions.new i (pos 0) ≡ (if settles s i then position else slice_index_or positions.old i (pos 0)) }
{
    let end = receiver_end(s);
    for i in 0..end {
        if settles(s, i) {
            positions[i] = position;
        }
    }
}
