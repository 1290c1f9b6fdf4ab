// The host page (document 02, A14): the readings of n heads in a lent buffer, a line each.
#![tactic(auto)]

ghost use Rattle.std.specs.Prelude.{◌≡◌, ◌∷◌, [], ◌++◌, ◌+◌, ◌≤◌, length};
ghost use Rattle.std.specs.Float.{binary32};
ghost use Rattle.std.specs.Float.Ieee.{to_bits};
ghost use Rattle.terms.specs.Refused.{numbered};
ghost use Rattle.texts.specs.Texts.{bytes_of, Longer};
ghost use Rattle.fields.specs.Bytes.{copied};
ghost use Rattle.frame_spec.specs.Written.{buffered};
ghost use Rattle.hostpage.specs.Page.{float_text, range_text, reading_line, page_of, page_answer, page_in};

use reading::{KeptRange, Reading};
use terms::{HEADS, Refusal};
use texts::Text;

// The readings of as many heads as a ring can have.
pub type Readings = [Reading; HEADS];

// The bits of a float. A NaN has the pattern that the logic writes for it.
pub fn bits_of(x: f32) -> u32
    ensures { result ≡ to_bits binary32 x }
{
    if x != x { 0x7fc0_0000 } else { f32::to_bits(x) }
}

// A text with a float after it, and one byte more.
fn put_float(t: Text, x: f32, after: u8) -> Text
    requires { t.len + 9 ≤ 64 }
    ensures { Longer t (float_text x ++ (after ∷ [])) 9 result }
{
    texts::put_hex(t, bits_of(x), after)
}

// A text with a range after it, and the line's end.
fn put_range(t: Text, kept: KeptRange) -> Text
    requires { t.len + 33 ≤ 64 }
    ensures { Longer t (range_text kept) 33 result }
{
    let t = texts::put(t, b"range ");
    let t = put_float(t, kept.lowest, b' ');
    let t = put_float(t, kept.highest, b' ');
    put_float(t, kept.midpoint, b'\n')
}

// The line of a head.
pub fn line_of(head: u8, reading: Reading) -> Text
    ensures result_value { bytes_of result ≡ reading_line head reading }
    ensures len_bound { result.len ≤ 64 }
{
    let t = texts::put_number(texts::empty(), head as u32, b' ');
    match reading {
        Reading::Unknown => texts::put(t, b"unknown\n"),
        Reading::Point(x) => put_float(texts::put(t, b"point "), x, b'\n'),
        Reading::Range(kept) => put_range(t, kept),
    }
}

// How long the page of n heads is.
fn page_length(n: u8, readings: Readings) -> usize
    requires { n ≤ 32 }
    ensures { result ≡ length (page_of n readings) }
{
    let mut total = 0;
    for k in 0..n {
        let t = line_of(k, readings[k as usize]);
        total += t.len;
    }
    total
}

// Copies a line into a buffer from a place on, if it fits there, and answers the place after it.
fn put_line(buffer: &mut [u8], at: usize, t: Text) -> usize
    requires { (t.len ≤ 64) × (at + length (bytes_of t) ≤ length buffer.old) }
    ensures { (result ≡ at + length (bytes_of t)) × (buffer.new ≡ copied buffer.old at (bytes_of t)) }
{
    let count = t.len;
    let bytes = t.bytes;
    fields::put_bytes(buffer, at, &bytes[..count]);
    at + count
}

// The page of n heads, written at the front of a buffer that holds it.
fn put_page(n: u8, readings: Readings, buffer: &mut [u8])
    requires n_bound { n ≤ 32 }
    requires readings_in_bounds { length (page_of n readings) ≤ length buffer.old }
    ensures { buffer.new ≡ buffered (page_of n readings) buffer.old }
{
    let mut at = 0;
    for k in 0..n {
        let t = line_of(k, readings[k as usize]);
        at = put_line(buffer, at, t);
    }
}

// The page of n heads, from 0 up, at the front of the buffer, and its length: refused 1, 24.
pub fn page(n: u8, readings: Readings, buffer: &mut [u8]) -> Result<usize, Refusal>
    ensures value { numbered result ≡ page_answer n readings buffer.old }
    ensures buffer_after { buffer.new ≡ page_in n readings buffer.old }
{
    if n == 0 {
        return Err(Refusal::BadHeadCount);
    }
    if 32 < n {
        return Err(Refusal::BadHeadCount);
    }
    let len = page_length(n, readings);
    if buffer.len() < len {
        return Err(Refusal::BufferTooShort);
    }
    put_page(n, readings, buffer);
    Ok(len)
}
