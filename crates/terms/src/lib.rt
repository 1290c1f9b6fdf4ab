// The papers' terms that every other crate speaks of: an entry, a table of entries, the size of a ring, which numbers are positions, and the
// numbers of the refusals.
#![tactic(auto)]

ghost use Rattle.std.specs.Prelude.{◌≡◌, min, ◌+ℤ◌};
ghost use Rattle.terms.specs.Positions.{is_position, half, rounding};
ghost use Rattle.terms.specs.Sizes.{is_count, is_listener, is_limit, limit_number, size_refusal, is_phase};
ghost use Rattle.terms.specs.Counting.{bit};
ghost use Rattle.terms.specs.Refused.{number, number_of};

pub mod refusal;

pub use refusal::{Refusal, number_of};

// A ring has 32 heads at most.
pub const HEADS: usize = 32;

// The lesser of two numbers.
pub fn least(a: usize, b: usize) -> usize
    ensures { result ≡ min a b }
{
    if a < b { a } else { b }
}

// How many of n heads, links or entries are looked at: those from 32 on give nothing.
pub fn at_most_32(n: usize) -> usize
    ensures { result ≡ min n 32 }
{
    if n < HEADS { n } else { HEADS }
}

// Receivers are the heads, 0 to 31, and the listeners, 32 to 47.
pub const FIRST_LISTENER: usize = 32;

pub const RECEIVERS: usize = 48;

// Whether a number is a listener's.
pub fn is_listener(number: u32) -> bool
    ensures { result ≡ is_listener number }
{
    32 <= number && number <= 47
}

// A ring is of one of two families: its phases have two rounds, collection and confession, or one (document 02, A9).
#[derive(Clone, Copy)]
pub enum Family {
    TwoRounds,
    OneRound,
}

// Whether a ring has so many heads: from 1 to 32.
fn is_count(n: u32) -> bool
    ensures { result ≡ is_count n }
{
    1 <= n && n <= 32
}

// Whether f is a struck limit for n heads: 2n at least 7f + 2, and in a ring of one round n at least 4f + 1.
fn is_limit(family: Family, n: u32, f: u32) -> bool
    ensures { result ≡ is_limit family n f }
{
    match family {
        Family::TwoRounds => 7 * (f as u64) + 2 <= 2 * (n as u64),
        Family::OneRound => 4 * (f as u64) + 1 <= n as u64,
    }
}

// Its refusal.
fn limit_refusal(family: Family) -> Refusal
    ensures { number result ≡ limit_number family }
{
    match family {
        Family::TwoRounds => Refusal::StruckLimitTooHigh,
        Family::OneRound => Refusal::OneRoundLimitTooHigh,
    }
}

// Whether a ring of n heads with the struck limit f is taken: refusals 1 for the head count, and for the limit 2, or 18 in a ring of one
// round.
pub fn check_size(family: Family, n: u32, f: u32) -> Result<(), Refusal>
    ensures { number_of result ≡ size_refusal family n f }
{
    if !is_count(n) {
        return Err(Refusal::BadHeadCount);
    }
    if !is_limit(family, n, f) {
        return Err(limit_refusal(family));
    }
    Ok(())
}

// Whether there is such a phase: from 1 to 65,535.
pub fn is_phase(phase: u32) -> bool
    ensures { result ≡ is_phase phase }
{
    1 <= phase && phase <= 65535
}

// Whether v is a position: from -1,000,000 to 1,000,000.
pub fn is_position(v: i32) -> bool
    ensures { result ≡ is_position v }
{
    -1000000 <= v && v <= 1000000
}

// Whether an odd sum is rounded up in a phase: down in odd phases, up in even ones (document 02, A7).
pub fn rounds_up(phase: u16) -> bool
    ensures { bit result ≡ rounding phase }
{
    phase % 2 == 0
}

// Half of a + b; an odd sum is rounded up, towards plus infinity, if `up`, else down, towards minus infinity.
pub fn half_sum(a: i32, b: i32, up: bool) -> i32
    ensures { result ≡ half (bit up) (a +ℤ b) }
{
    ((a as i64 + b as i64 + up as i64) >> 1) as i32
}

// A position for each receiver.
pub type Positions = [i32; RECEIVERS];

// A number for each head, as the entries of a list; a mark word for each; and a list for each.
pub type Numbers = [i32; HEADS];

pub type Words = [u32; HEADS];

pub type Lists = [Numbers; HEADS];

// An entry is either null (no value), which is `None`, or a position (the value of a node, in the field's terms); zero steps is a position.
pub type Entry = Option<i32>;

// A table of entries, one for each head: bit j of marks is set if entry j is a position; entries holds 0 if it is null.
#[derive(Clone, Copy)]
pub struct Table {
    pub marks: u32,
    pub entries: Numbers,
}
