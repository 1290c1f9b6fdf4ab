// A phase of one round, for a receiver to which nothing is planted between the lowest and the highest position that all hear. A planted
// position then moves the kept range by one place, whatever it is, so the planted ones are only counted.
ghost use Rattle.std.specs.Prelude.{◌≡◌, ◌-◌, ◌<◌, ◌≤◌, true, pos, ◌+ℤ◌, slice_index_or};
ghost use Rattle.terms.specs.Positions.{half, rounding};
ghost use Rattle.frame_slots.specs.Slots.{planted_in};
ghost use Rattle.ring_play.specs.Memory.{heads};
ghost use Rattle.ring_play.specs.Inner.Sides.{planted_entry, counts_with, SidesCounted, SidesDecide};

use crate::{Stage, collection, round};
use settle_midpoint::Order;
use terms::Entry;

// How many positions there are, how many of them are no higher than the lowest that all hear, and how many no lower than the highest.
#[derive(Clone, Copy)]
pub(crate) struct Counts {
    all: usize,
    low: usize,
    high: usize,
}

// An entry more.
fn with_entry(c: Counts, e: Entry, lowest: i32, highest: i32) -> Counts
    requires { (c.all < 32) × (c.low < 32) × (c.high < 32) }
    ensures { result ≡ counts_with lowest highest e c }
{
    match e {
        None => c,
        Some(v) => Counts {
            all: c.all + 1,
            low: c.low + (v <= lowest) as usize,
            high: c.high + (highest <= v) as usize,
        },
    }
}

// The last of the positions in order; 0 if there is none.
fn highest_of(order: Order) -> i32
    requires { order.len ≤ 32 }
    ensures { result ≡ slice_index_or order.positions (order.len - 1) (pos 0) }
{
    if order.len == 0 {
        return order.positions[0];
    }
    order.positions[order.len - 1]
}

// Counts what is planted to receiver i. `order`: the positions that all hear.
pub(crate) fn count_sides(
    s: Stage,
    order: Order,
    planted: &[u8],
    lengths: &[u8],
    i: usize,
) -> Counts
    requires { (i < 48) × (order.len ≤ 32) }
    ensures { SidesCounted (heads s) (planted_entry s (planted_in planted.now lengths.now) i) (slice_index_or order.positions 0 (pos 0))
        (slice_index_or order.positions (order.len - 1) (pos 0)) result }
{
    let lowest = order.positions[0];
    let highest = highest_of(order);
    let mut c = Counts {
        all: 0,
        low: 0,
        high: 0,
    };
    for k in round::struck_heads(s) {
        let e = collection::entry_planted(s, planted, lengths, k, i);
        c = with_entry(c, e, lowest, highest);
    }
    c
}

// Whether the counts decide what is kept, if all hear `len` positions. To answer no is free, and shows in the time alone.
pub(crate) fn decides(s: Stage, len: usize, c: Counts) -> bool
    requires { (len ≤ 32) × (c.all ≤ 32) × (c.low ≤ 32) × (c.high ≤ 32) }
    ensures { result ≡ true → SidesDecide (heads s) s.f len c }
{
    let n = round::head_count(s) as usize;
    let f = s.f as usize;
    if len <= 2 * f {
        return false;
    }
    if f < c.low {
        return false;
    }
    if f < c.high {
        return false;
    }
    if c.low + c.high < c.all {
        return false;
    }
    n <= len + c.all + 2 * f
}

// The new position by the counts, if they decide.
pub(crate) fn position_inside(s: Stage, order: Order, c: Counts) -> i32
    requires { (order.len ≤ 32) × SidesDecide (heads s) s.f order.len c }
    ensures { result ≡ half (rounding s.phase)
        (slice_index_or order.positions (s.f - c.low) (pos 0) +ℤ slice_index_or order.positions (order.len - 1 - (s.f - c.high)) (pos 0)) }
{
    let f = s.f as usize;
    let low = order.positions[f - c.low];
    let high = order.positions[order.len - 1 - (f - c.high)];
    terms::half_sum(low, high, terms::rounds_up(s.phase))
}
