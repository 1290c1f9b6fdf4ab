// Fields of a slice of bytes, read and written: little-endian numbers, with a sign and without. A byte past the end reads as 0, and
// past the end nothing is written.
#![tactic(auto)]

ghost use Rattle.std.specs.Prelude.{◌≡◌, ◌+◌, ◌*◌, ◌≤◌, ◌<◌, length, get_or, drop, set, []};
ghost use Rattle.fields.specs.Bytes.{at2, at4, signed_of, word_of, put2, put4, over, copied};
ghost use Rattle.std.proofs.Math.Seq.{paste};

// The byte at a place.
pub fn byte_at(s: &[u8], at: usize) -> u8
    ensures { result ≡ get_or s.now at 0 }
{
    if at < s.len() { s[at] } else { 0 }
}

fn join2(a: u8, b: u8) -> u16
    ensures { result ≡ a + 256 * b }
{
    a as u16 + 256 * (b as u16)
}

// The word of four bytes.
pub fn join4(a: u8, b: u8, c: u8, d: u8) -> u32
    ensures { result ≡ a + 256 * b + 65536 * c + 16777216 * d }
{
    a as u32 + 256 * (b as u32) + 65536 * (c as u32) + 16777216 * (d as u32)
}

// The number of two bytes.
pub fn half_at(s: &[u8], at: usize) -> u16
    ensures { result ≡ at2 s.now at }
{
    if at < s.len() {
        return join2(s[at], byte_at(s, at + 1));
    }
    0
}

// Four bytes of which the first is there.
fn word_cut(s: &[u8], at: usize) -> u32
    requires { at < length s.now }
    ensures { result ≡ at4 s.now at }
{
    join4(
        s[at],
        byte_at(s, at + 1),
        byte_at(s, at + 2),
        byte_at(s, at + 3),
    )
}

// The number of four bytes, without a sign.
pub fn word_at(s: &[u8], at: usize) -> u32
    ensures { result ≡ at4 s.now at }
{
    let len = s.len();
    if at < len {
        if 4 <= len - at {
            return join4(s[at], s[at + 1], s[at + 2], s[at + 3]);
        }
        return word_cut(s, at);
    }
    0
}

// The bytes from a place on; none past the end.
pub fn bytes_from(s: &[u8], at: usize) -> &[u8]
    ensures { result.now ≡ drop at s.now }
{
    if s.len() < at {
        return &s[..0];
    }
    &s[at..]
}

// A word as a number with a sign.
pub fn signed(x: u32) -> i32
    ensures { result ≡ signed_of x }
{
    if x < 2147483648 {
        x as i32
    } else {
        -1 - (4294967295 - x) as i32
    }
}

// ---- Fields of a slice of bytes, written: little-endian numbers. A byte past the end is not written.

// The word of a number with a sign.
pub fn unsigned(v: i32) -> u32
    ensures { result ≡ word_of v }
{
    if v < 0 {
        4294967295 - ((-1 - v) as u32)
    } else {
        v as u32
    }
}

fn put_byte(s: &mut [u8], at: usize, b: u8)
    ensures { s.new ≡ set s.old at b }
{
    if at < s.len() {
        s[at] = b;
    }
}

// Two bytes written over a slice.
pub fn put_half(s: &mut [u8], at: usize, x: u16)
    ensures { s.new ≡ over (put2 x []) at s.old }
{
    if at < s.len() {
        s[at] = (x % 256) as u8;
        put_byte(s, at + 1, (x / 256 % 256) as u8);
    }
}

// Four bytes written over a slice.
pub fn put_word(s: &mut [u8], at: usize, x: u32)
    ensures { s.new ≡ over (put4 x []) at s.old }
{
    let a = (x % 256) as u8;
    let b = (x / 256 % 256) as u8;
    let c = (x / 65536 % 256) as u8;
    let d = (x / 16777216 % 256) as u8;
    let size = s.len();
    if at < size {
        if 4 <= size - at {
            s[at] = a;
            s[at + 1] = b;
            s[at + 2] = c;
            s[at + 3] = d;
        } else {
            s[at] = a;
            put_byte(s, at + 1, b);
            put_byte(s, at + 2, c);
            put_byte(s, at + 3, d);
        }
    }
}

// Copies eight bytes over a slice from a place on, all of which is there. They are read before one is written, so that it can be done at once.
fn copy_eight(s: &mut [u8], at: usize, bytes: &[u8])
    requires { (at + 8 ≤ length s.old) × (8 ≤ length bytes.now) }
    ensures { s.new ≡ paste s.old at bytes.now 8 }
{
    let b0 = bytes[0];
    let b1 = bytes[1];
    let b2 = bytes[2];
    let b3 = bytes[3];
    let b4 = bytes[4];
    let b5 = bytes[5];
    let b6 = bytes[6];
    let b7 = bytes[7];
    s[at] = b0;
    s[at + 1] = b1;
    s[at + 2] = b2;
    s[at + 3] = b3;
    s[at + 4] = b4;
    s[at + 5] = b5;
    s[at + 6] = b6;
    s[at + 7] = b7;
}

// The same of the first `count` bytes, one by one.
fn copy_few(s: &mut [u8], at: usize, bytes: &[u8], count: usize)
    requires { (at + count ≤ length s.old) × (count ≤ length bytes.now) }
    ensures { s.new ≡ paste s.old at bytes.now count }
{
    // A `while`, as below.
    let mut j: usize = 0;
    while j < count {
        s[at + j] = bytes[j];
        j += 1;
    }
}

// The same of all bytes.
fn copy_within(s: &mut [u8], at: usize, bytes: &[u8])
    requires { at + length bytes.now ≤ length s.old }
    ensures { s.new ≡ paste s.old at bytes.now (length bytes.now) }
{
    // A `while`: with a `for` over the eights, and one over what is left, the player takes more instructions.
    let mut j: usize = 0;
    while 8 <= bytes.len() - j {
        copy_eight(s, at + j, &bytes[j..]);
        j += 8;
    }
    copy_few(s, at + j, &bytes[j..], bytes.len() % 8);
}

// Copies bytes over a slice from a place on, if they fit there. Not by `copy_from_slice`, which calls `memmove`: the library for C needs none.
pub fn put_bytes(s: &mut [u8], at: usize, bytes: &[u8])
    ensures { s.new ≡ copied s.old at bytes.now }
{
    let size = s.len();
    if size < at {
        return;
    }
    if size - at < bytes.len() {
        return;
    }
    copy_within(s, at, bytes);
}
