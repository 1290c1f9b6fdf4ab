// The texts of the listing: its first line, a line for each phase end, with the lowest and the highest position and their spread, and its
// last line.
#![tactic(auto)]

ghost use Rattle.std.specs.Prelude.{◌≡◌, not, ◌+◌, ◌%◌, ◌≤◌, ◌^◌, get_or, pos, ◌∷◌, [], ◌++◌};
ghost use Rattle.convergence.specs.Phases.{join, apart};
ghost use Rattle.ring_spec.specs.Rounds.{receivers, is_out};
ghost use Rattle.run_listing.specs.Held.{end_in};
ghost use Rattle.run_listing.specs.Heights.{height_of, outward, LowestHighest, first_sound};
ghost use Rattle.run_listing.specs.Inner.{Reaches};
ghost use Rattle.run_spec.specs.Listing.{text_of, title, verdict};
ghost use Rattle.texts.specs.Numbers.{whole};
ghost use Rattle.texts.specs.Texts.{bytes_of, text_in, Longer};
ghost use Rattle.ring_spec.specs.Agreed.{held_by_all, is_agreed};
ghost use Rattle.run_listing.specs.Texts.{fields};
ghost use Rattle.run_listing.specs.Level.{levelled};

use run_judge::HEAD_MARKS;
use terms::{Entry, Positions, RECEIVERS};
use texts::{Line, Text};

// The lowest and the highest position.
#[derive(Clone, Copy)]
pub struct Extremes {
    pub low: Entry,
    pub high: Entry,
}

// How far v lies above the lowest number of 32 bits.
fn height(v: i32) -> u32
    ensures { result ≡ height_of v }
{
    let w = fields::unsigned(v);
    if w < 2147483648 {
        w + 2147483648
    } else {
        w - 2147483648
    }
}

// The position of receiver j; 0 past the last.
pub fn position_at(positions: &[i32], j: usize) -> i32
    ensures { result ≡ get_or positions.now j (pos 0) }
{
    if j < positions.len() { positions[j] } else { 0 }
}

// Of v and an entry's position, the lower one, or the higher.
fn outer(v: i32, e: Entry, high: bool) -> Entry
    ensures { result ≡ join (outward high) (Some v) e }
{
    let Some(w) = e else {
        return Some(v);
    };
    if (v <= w) == high { Some(w) } else { Some(v) }
}

// How many receivers are looked at: without listeners the heads, else all.
fn reach(n: u8, m: u8) -> usize
    ensures { Reaches n m result }
{
    if 0 < m {
        return RECEIVERS;
    }
    if n < 48 { n as usize } else { RECEIVERS }
}

// Whether receiver j is there, and the mark word leaves it.
fn is_sound(n: u8, m: u8, struck: u64, j: usize) -> bool
    ensures { result ≡ not (is_out n m struck j) }
{
    if run_judge::is_receiver(n, m, j) {
        return !marks::marked_wide(struck, j);
    }
    false
}

// The lowest and the highest position of the heads and listeners that the mark word leaves.
pub fn extremes_of(n: u8, m: u8, struck: u64, positions: &Positions) -> Extremes
    ensures { LowestHighest receivers (end_in n m struck positions.now) result.low result.high }
{
    let mut low = None;
    let mut high = None;
    for j in 0..reach(n, m) {
        if is_sound(n, m, struck, j) {
            let v = position_at(positions, j);
            low = outer(v, low, false);
            high = outer(v, high, true);
        }
    }
    Extremes { low, high }
}

// The position of the first head or listener that the mark word leaves.
pub fn first_sound(n: u8, m: u8, struck: u64, positions: &Positions) -> Entry
    ensures { result ≡ first_sound receivers (end_in n m struck positions.now) }
{
    match (0..RECEIVERS).find(|j| is_sound(n, m, struck, *j)) {
        Some(first) => Some(positions[first]),
        None => None,
    }
}

// How far apart two entries are; 0 if one is null.
#[tactic(auto, unfolding(terms::specs::Positions::gap))]
fn spread_of(low: Entry, high: Entry) -> u32
    ensures { result ≡ apart low high }
{
    let Some(a) = low else {
        return 0;
    };
    let Some(b) = high else {
        return 0;
    };
    b.abs_diff(a)
}

// Whether all heads and listeners that the mark word leaves hold one position. If they do, it becomes that of all places.
pub fn level(n: u8, m: u8, struck: u64, positions: &mut Positions) -> bool
    ensures is { result ≡ is_agreed (held_by_all (end_in n m struck positions.old)) }
    ensures becomes { positions.new ≡ levelled (held_by_all (end_in n m struck positions.old)) positions.old }
{
    let extremes = extremes_of(n, m, struck, positions);
    let low = extremes.low;
    let high = extremes.high;
    let Some(a) = low else {
        return false;
    };
    let Some(b) = high else {
        return false;
    };
    if a != b {
        return false;
    }
    *positions = [a; RECEIVERS];
    true
}

// ---- The texts of a listing: its first line, a line for a phase end, and its last line.

// A position behind the first bytes of a line, and a space. Answers how many bytes the text has then.
fn put_position(line: &mut Line, at: usize, v: i32) -> usize
    requires { at + 12 ≤ 64 }
    ensures { Longer (text_in at line.old) (whole v ++ (32 ∷ [])) 12 (text_in result line.new) }
{
    let h = height(v);
    if h < 2147483648 {
        let to = texts::put_at(line, at, b"-");
        texts::put_number_at(line, to, 2147483648 - h, b' ')
    } else {
        texts::put_number_at(line, at, h - 2147483648, b' ')
    }
}

// An entry, and a space.
fn put_entry(line: &mut Line, at: usize, e: Entry) -> usize
    requires { at + 12 ≤ 64 }
    ensures { Longer (text_in at line.old) (text_of e ++ (32 ∷ [])) 12 (text_in result line.new) }
{
    match e {
        None => texts::put_at(line, at, b" "),
        Some(v) => put_position(line, at, v),
    }
}

// The first line.
pub fn title_line() -> Text
    ensures result_value { bytes_of result ≡ title }
    ensures len_bound { result.len ≤ 64 }
{
    texts::put(texts::empty(), b"phase low high spread collect confess\n")
}

// The last line: `end`, or `refused` and the number.
pub fn verdict_line(number: u8) -> Text
    ensures result_value { bytes_of result ≡ verdict number }
    ensures len_bound { result.len ≤ 64 }
{
    if number == 0 {
        texts::put(texts::empty(), b"end\n")
    } else {
        texts::put_number(
            texts::put(texts::empty(), b"refused "),
            number as u32,
            b'\n',
        )
    }
}

// The marks of the heads in a mark word for heads and listeners.
fn heads_of(marks: u64) -> u32
    ensures { result ≡ marks % 2 ^ 32 }
{
    (marks % HEAD_MARKS) as u32
}

// The line of a phase end: its lowest and highest position, and the two mark words of which it prints the heads' bits.
pub fn end_line(phase: u16, extremes: Extremes, collect: u64, confess: u64) -> Text
    ensures result_value { bytes_of result ≡ fields phase extremes.low extremes.high (apart extremes.low extremes.high) collect confess }
    ensures len_bound { result.len ≤ 64 }
{
    let low = extremes.low;
    let high = extremes.high;
    let mut bytes = [0u8; 64];
    let at = texts::put_number_at(&mut bytes, 0, phase as u32, b' ');
    let at = put_entry(&mut bytes, at, low);
    let at = put_entry(&mut bytes, at, high);
    let at = texts::put_number_at(&mut bytes, at, spread_of(low, high), b' ');
    let at = texts::put_hex_at(&mut bytes, at, heads_of(collect), b' ');
    let len = texts::put_hex_at(&mut bytes, at, heads_of(confess), b'\n');
    Text { len, bytes }
}
