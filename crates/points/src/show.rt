// Answers, printed. Each gives back one number for what it printed: a number's own word, and others for words.
use settle_midpoint::Kept;
use terms::{Entry, Refusal};

// Standard output, by its number.
const STDOUT_FILENO: i32 = 1;

pub(crate) fn text(words: &[u8]) {
    io::write_all(STDOUT_FILENO, words);
}

pub(crate) fn count(n: u64) -> u64 {
    io::print_decimal(STDOUT_FILENO, n);
    n
}

// Null, or that something is promised.
pub(crate) const WORD: u64 = 4294967296;

// That something is not promised, a refusal, nothing.
pub(crate) const OTHER: u64 = 8589934592;

// Whether something is taken, or why it is refused.
pub(crate) fn taken<T: Drop>(answer: Result<T, Refusal>) -> u64 {
    match answer {
        Ok(_) => text(b"taken"),
        Err(refusal) => {
            refused(refusal);
        }
    }
    OTHER
}

fn refused(refusal: Refusal) -> u64 {
    text(b"refused ");
    count(refusal.number() as u64);
    OTHER
}

pub(crate) fn position(v: i32) -> u64 {
    let w = fields::unsigned(v);
    if v < 0 {
        text(b"-");
        count(std::num::wrapping_sub_u32(0, w) as u64);
    } else {
        count(w as u64);
    }
    w as u64
}

pub(crate) fn entry(e: Entry) -> u64 {
    match e {
        None => {
            text(b"null");
            WORD
        }
        Some(v) => position(v),
    }
}

// The new position.
pub(crate) fn settled(s: Result<Kept, Refusal>) -> u64 {
    match s {
        Err(refusal) => refused(refusal),
        Ok(kept) => position(kept.position),
    }
}

fn nanometres(x: i64) -> u64 {
    if x < 0 {
        text(b"-");
        return std::num::wrapping_sub_u64(WORD, count(1 + (-1 - x) as u64));
    }
    count(x as u64)
}

pub(crate) fn scaled(s: Result<i64, Refusal>) -> u64 {
    match s {
        Err(refusal) => refused(refusal),
        Ok(x) => nanometres(x),
    }
}

// A frame, checked.
pub(crate) fn check(frame: &[u8]) -> u64 {
    taken(frame_check::check(frame));
    text(b", rest of ");
    count(frame_check::rest(frame).len() as u64);
    text(b" bytes");
    OTHER
}
