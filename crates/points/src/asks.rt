// What the letter after a `#` asks about the line before it.
ghost use Rattle.terms.specs.declared.Family.TheVariants.{TwoRounds};
ghost use Rattle.std.specs.Prelude.{T, ◌↔◌};
ghost use Rattle.convergence.specs.Demand3.{Halves};

use crate::lines::{Brackets, First, Line};
use crate::show;
use settle_trust::Links;
use terms::{Family, Lists};

// The last two answers.
#[derive(Clone, Copy)]
pub struct Said {
    pub before: u64,
    pub latest: u64,
}

// Whether halving is promised: 3n at least 11f + 3.
fn halves(n: u32, f: u32) -> bool
    ensures { T result ↔ Halves TwoRounds n f }
{
    11 * (f as u64) + 3 <= 3 * (n as u64)
}

fn promise(n: u32, f: u32) -> u64 {
    if halves(n, f) {
        show::text(b"promised");
        return show::WORD;
    }
    show::text(b"not promised");
    show::OTHER
}

// Number k of a line, as a word, a count and a position.
fn word(x: First, k: usize) -> u32 {
    if k < 8 { x[k] } else { 0 }
}

fn byte(x: First, k: usize) -> u8 {
    (word(x, k) % 256) as u8
}

fn position(x: First, k: usize) -> i32 {
    fields::signed(word(x, k))
}

// Half of the sum of numbers a and b, rounded by the phase that is number p.
fn half(x: First, a: usize, b: usize, p: usize) -> u64 {
    let up = terms::rounds_up((word(x, p) % 65536) as u16);
    show::position(terms::half_sum(position(x, a), position(x, b), up))
}

// The position that was answered.
fn position_of(answer: u64) -> i32 {
    fields::signed((answer % show::WORD) as u32)
}

fn answered(answer: u64) {
    show::position(position_of(answer));
}

// How far the last two lie apart.
fn spread(said: Said) -> u64 {
    let a = position_of(said.before);
    let b = position_of(said.latest);
    let x = fields::unsigned(a);
    let y = fields::unsigned(b);
    if a < b {
        return show::count(std::num::wrapping_sub_u32(y, x) as u64);
    }
    show::count(std::num::wrapping_sub_u32(x, y) as u64)
}

// The first len bytes; all of them if they are fewer.
fn front(s: &[u8], len: usize) -> &[u8] {
    if len < s.len() {
        return &s[0..len];
    }
    s
}

// The midpoint of the entries in brackets.
fn midpoint(x: First, r: Brackets) -> u64 {
    let n = word(x, 0);
    let bytes = r.bytes;
    let entries = front(&bytes, 4 * (n as usize));
    show::settled(settle_midpoint::midpoint(
        Family::TwoRounds,
        n,
        word(x, 1),
        word(x, 2),
        r.marks,
        entries,
    ))
}

// The frame of a list of nulls, by its length and its count; the bytes up to 1,032 are 0.
fn list_frame(x: First) -> u64 {
    let len = word(x, 0);
    let mut bytes = [0u8; 1032];
    bytes[0] = (len % 256) as u8;
    bytes[1] = (len / 256 % 256) as u8;
    bytes[2] = 3;
    bytes[5] = 1;
    bytes[7] = byte(x, 1);
    show::check(front(&bytes, len as usize))
}

// What the links gave. In a settling each list is the one in brackets; else a link's list has its position in brackets for every head.
fn lists(r: Brackets, settling: bool) -> Lists {
    let bytes = r.bytes;
    let row = entries::numbers_at(&bytes, 32);
    if settling {
        [row; 32]
    } else {
        row.map(|x| [x; 32])
    }
}

fn links(r: Brackets, settling: bool) -> Links {
    let marks = if settling { [r.marks; 32] } else { r.words };
    Links {
        confessed: r.confessed,
        listed: r.listed,
        marks,
    }
}

// The trusted entry of the head that is number 0, in a ring of the size that follows.
fn trusted(x: First, r: Brackets) -> u64 {
    let j = word(x, 0) as usize;
    show::entry(settle_trust::trusted_entry(
        lists(r, false),
        links(r, false),
        byte(x, 1),
        byte(x, 2),
        j,
    ))
}

// The support of the last of count numbers.
fn support(x: First, r: Brackets, count: usize) -> u64 {
    let j = word(x, 0) as usize;
    let k = if 0 < count { count - 1 } else { 0 };
    show::count(settle_trust::support(
        lists(r, false),
        links(r, false),
        byte(x, 1),
        j,
        position(x, k),
    ) as u64)
}

fn settled(x: First, r: Brackets) -> u64 {
    show::settled(settle_position::settle(
        lists(r, true),
        links(r, true),
        byte(x, 0),
        byte(x, 1),
        terms::rounds_up(1),
    ))
}

// In a settling, the trusted entry of head j.
fn trusted_in_settling(x: First, r: Brackets, j: usize) {
    let t = settle_trust::trusted_table(lists(r, true), links(r, true), byte(x, 0), byte(x, 1));
    if j < 32 && marks::marked(t.marks, j) {
        show::position(t.entries[j]);
    } else {
        show::text(b"null");
    }
}

// A digit asks for a trusted entry in a settling, and else for the trim with so many nulls.
fn numbered(x: First, r: Brackets, settling: bool, k: u8) {
    if settling {
        trusted_in_settling(x, r, k as usize);
    } else {
        show::count(settle_midpoint::trim_of(byte(x, 0), k) as u64);
    }
}

fn frame(r: Brackets) -> u64 {
    let bytes = r.bytes;
    show::check(front(&bytes, r.places))
}

// Answers about numbers.
fn of_numbers(x: First, b: u8) -> u64 {
    let n = word(x, 0);
    let f = word(x, 1);
    match b {
        b'S' => show::taken(terms::check_size(Family::TwoRounds, n, f)),
        b'H' => promise(n, f),
        b'L' => list_frame(x),
        b'B' => show::check(&io::large_buffer()),
        b'N' => show::scaled(steps::scale(position(x, 0), f, word(x, 2))),
        b'h' => half(x, 0, 1, 2),
        b'd' => half(x, 1, 2, 0),
        _ => half(x, 3, 4, 0),
    }
}

// Answers about what stands in brackets.
fn of_brackets(x: First, r: Brackets, count: usize, b: u8) -> u64 {
    match b {
        b'm' => midpoint(x, r),
        b't' => trusted(x, r),
        b's' => support(x, r, count),
        b'F' => frame(r),
        b'p' => settled(x, r),
        _ => of_numbers(x, b),
    }
}

// Whether a wrong reading answers as ours does.
fn compare(ours: u64, wrong: u64) {
    if ours == wrong {
        show::text(b"SAME");
    } else {
        show::text(b"differs");
    }
}

// Prints the answer, and keeps it if more may be asked about it.
pub(crate) fn say(line: Line, said: Said, b: u8) -> Said {
    let x = line.numbers;
    let r = line.brackets;
    match b {
        b'x' | b'l' | b'c' => {}
        b'0'..=b'9' => numbered(x, r, line.mode != 0, b - b'0'),
        b'<' => answered(said.before),
        b'>' => answered(said.latest),
        b'=' => compare(said.latest, line.wrong),
        b'r' => {
            return Said {
                before: said.latest,
                latest: spread(said),
            };
        }
        _ => {
            return Said {
                before: said.latest,
                latest: of_brackets(x, r, line.count, b),
            };
        }
    }
    said
}
