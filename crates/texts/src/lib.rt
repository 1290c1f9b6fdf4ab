// Texts of up to 64 bytes, made by putting bytes and numbers behind each other. What finds no room is not put.
#![tactic(auto)]

ghost use Rattle.std.specs.Prelude.{◌≡◌, ◌∷◌, [], ◌++◌, ◌+◌, ◌≤◌, ◌<◌, leb, length};
ghost use Rattle.texts.specs.Numbers.{size, decimal, hex_digit, hex, spelled};
ghost use Rattle.texts.specs.Texts.{text_in, Longer, Puts};

// Room for a text.
pub type Line = [u8; 64];

// A text of up to 64 bytes: the first len of bytes. The others are free.
#[derive(Clone, Copy)]
pub struct Text {
    pub len: usize,
    pub bytes: Line,
}

// The empty text.
pub fn empty() -> Text
    ensures { result.len ≡ 0 }
{
    Text {
        len: 0,
        bytes: [0u8; 64],
    }
}

// Whether k bytes more than len are at most 64.
fn has_room(len: usize, k: usize) -> bool
    ensures { result ≡ leb (len + k) 64 }
{
    if 64 < len {
        return false;
    }
    k <= 64 - len
}

// ---- Put behind the first bytes of a line. Each answers how many bytes the text has then.

// The bytes of a slice, for which there is room.
fn put_within(line: &mut [u8], at: usize, s: &[u8]) -> usize
    requires { (length line.old ≡ 64) × (at + length s.now ≤ 64) }
    ensures { Longer (text_in at line.old) s.now (length s.now) (text_in result line.new) }
{
    fields::put_bytes(line, at, s);
    at + s.len()
}

// The bytes of a slice.
pub fn put_at(line: &mut Line, at: usize, s: &[u8]) -> usize
    ensures { Puts (text_in at line.old) s.now (text_in result line.new) }
{
    if has_room(at, s.len()) {
        return put_within(line, at, s);
    }
    at
}

// The byte of a digit.
fn digit(d: u32) -> u8
    requires { d < 16 }
    ensures { result ≡ hex_digit d }
{
    if d < 10 { 48 + d as u8 } else { 87 + d as u8 }
}

// The last k digits of x in a base, and one byte more, for which there is room.
fn put_digits(line: &mut [u8], at: usize, base: u32, k: usize, x: u32, after: u8) -> usize
    requires { (length line.old ≡ 64) × (0 < base) × (base ≤ 16) × (at + k + 1 ≤ 64) }
    ensures { Longer (text_in at line.old) (spelled base k x ++ (after ∷ [])) (k + 1) (text_in result line.new) }
{
    line[at + k] = after;
    let mut rest = x;
    for i in (0..k).rev() {
        line[at + i] = digit(rest % base);
        rest /= base;
    }
    at + k + 1
}

// How many decimal digits x has.
fn size_of(x: u32) -> usize
    ensures { (result ≡ size 9 x) × (result ≤ 10) }
{
    let mut rest = x;
    for k in 1..10 {
        if rest < 10 {
            return k;
        }
        rest /= 10;
    }
    10
}

// A number, without padding, and one byte more.
pub fn put_number_at(line: &mut Line, at: usize, x: u32, after: u8) -> usize
    ensures { Puts (text_in at line.old) (decimal x ++ (after ∷ [])) (text_in result line.new) }
{
    let k = size_of(x);
    if has_room(at, k + 1) {
        return put_digits(line, at, 10, k, x, after);
    }
    at
}

// A word, as eight hexadecimal digits, and one byte more.
pub fn put_hex_at(line: &mut Line, at: usize, x: u32, after: u8) -> usize
    ensures { Puts (text_in at line.old) (hex 8 x ++ (after ∷ [])) (text_in result line.new) }
{
    if has_room(at, 9) {
        return put_digits(line, at, 16, 8, x, after);
    }
    at
}

// ---- The same behind a text by value.

// A text with the bytes of a slice after it.
pub fn put(t: Text, s: &[u8]) -> Text
    ensures { Puts t s.now result }
{
    let mut bytes = t.bytes;
    let len = put_at(&mut bytes, t.len, s);
    Text { len, bytes }
}

// A text with a number after it, without padding, and one byte more.
pub fn put_number(t: Text, x: u32, after: u8) -> Text
    ensures { Puts t (decimal x ++ (after ∷ [])) result }
{
    let mut bytes = t.bytes;
    let len = put_number_at(&mut bytes, t.len, x, after);
    Text { len, bytes }
}

// A text with a word after it, as eight hexadecimal digits, and one byte more.
pub fn put_hex(t: Text, x: u32, after: u8) -> Text
    ensures { Puts t (hex 8 x ++ (after ∷ [])) result }
{
    let mut bytes = t.bytes;
    let len = put_hex_at(&mut bytes, t.len, x, after);
    Text { len, bytes }
}
