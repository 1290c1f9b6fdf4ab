// The entries of a list, in the bytes of a frame and as an array.
#![tactic(auto)]

ghost use Rattle.std.specs.Prelude.{true, ◌≡◌, ℕ, ◌+◌, ◌*◌, ◌≤◌, length};
ghost use Rattle.terms.specs.Positions.{is_position};
ghost use Rattle.fields.specs.Bytes.{at4, signed_of};
ghost use Rattle.marks.specs.Marks.{all_marked};
ghost use Rattle.entries.specs.Entries.{fits, entries_fit, numbers};

use terms::{HEADS, Numbers};

// Whether a word holds a position.
pub fn is_position_word(x: u32) -> bool
    ensures { result ≡ is_position (signed_of x) }
{
    if x <= 1000000 { true } else { 4293967296 <= x }
}

// Four bytes that are all there.
fn word_within(s: &[u8], at: usize) -> u32
    requires { at + 4 ≤ length s.now }
    ensures { result ≡ at4 s.now at }
{
    fields::join4(s[at], s[at + 1], s[at + 2], s[at + 3])
}

// The same if it is known whether all are there: a loop over the words of a list asks that once.
fn word_in(whole: bool, s: &[u8], at: usize) -> u32
    requires { whole ≡ true → at + 4 ≤ length s.now }
    ensures { result ≡ at4 s.now at }
{
    if whole {
        return word_within(s, at);
    }
    fields::word_at(s, at)
}

// Whether a word fits in a list.
fn word_fits(mark: bool, x: u32) -> bool
    ensures { result ≡ fits mark (signed_of x) }
{
    if mark { is_position_word(x) } else { x == 0 }
}

// Whether the first n entries fit in a list, one by one.
fn each_fits(marks: u32, s: &[u8], n: u8) -> bool
    ensures { result ≡ entries_fit marks s.now n }
{
    let count = n as usize;
    let whole = 4 * count <= s.len();
    (0..count).all(|j| word_fits(marks::marked(marks, j), word_in(whole, s, 4 * j)))
}

// The same of a list without nulls. All words are looked at, without a branch, so that many are tested at once.
fn all_fit(s: &[u8], n: u8) -> bool
    requires { 4 * n ≤ length s.now }
    ensures { (marks : ℕ) → all_marked marks n ≡ true → result ≡ entries_fit marks s.now n }
{
    let mut fit = true;
    for i in 0..n as usize {
        fit &= is_position_word(word_within(s, 4 * i));
    }
    fit
}

// Whether the first n entries fit in a list.
pub fn entries_fit(marks: u32, s: &[u8], n: u8) -> bool
    ensures { result ≡ entries_fit marks s.now n }
{
    let count = n as usize;
    if 4 * count <= s.len() && marks::all_marked(marks, count) {
        return all_fit(s, n);
    }
    each_fits(marks, s, n)
}

// The first n entries of a list as an array, 0 from n on.
pub fn numbers_at(s: &[u8], n: u8) -> Numbers
    ensures { result ≡ numbers s.now n }
{
    let mut out = [0i32; HEADS];
    let end = terms::at_most_32(n as usize);
    let whole = 4 * end <= s.len();
    for k in 0..end {
        out[k] = fields::signed(word_in(whole, s, 4 * k));
    }
    out
}
