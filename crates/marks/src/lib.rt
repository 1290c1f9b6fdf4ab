// Mark words: a bit for each entry of a list, or for each head.
#![tactic(auto)]

ghost use Rattle.std.specs.Prelude.{◌≡◌, ◌^◌, ◌<◌};
ghost use Rattle.marks.specs.Marks.{bit_of, marks_below, all_marked, with_mark, count_below};

// Whether bit j of a mark word is set.
pub fn marked(marks: u32, j: usize) -> bool
    ensures { result ≡ bit_of marks j }
{
    if j < 32 { (marks >> j) % 2 == 1 } else { false }
}

// Whether bit j of a mark word for heads and listeners is set.
pub fn marked_wide(marks: u64, j: usize) -> bool
    ensures { result ≡ bit_of marks j }
{
    if j < 64 { (marks >> j) % 2 == 1 } else { false }
}

// Whether there is no mark at n or above.
pub fn marks_below(marks: u32, n: usize) -> bool
    ensures { result ≡ marks_below marks n }
{
    if n < 32 { marks >> n == 0 } else { true }
}

// Whether the first n bits are set, and no other.
pub fn all_marked(marks: u32, n: usize) -> bool
    ensures { result ≡ all_marked marks n }
{
    if 32 < n {
        return false;
    }
    marks as u64 + 1 == 1u64 << n
}

// The mark of bit k.
fn mark(k: usize) -> u32
    requires { k < 32 }
    ensures { result ≡ 2 ^ k }
{
    1u32 << k
}

// A mark word with bit k set.
pub fn with_mark(marks: u32, k: usize) -> u32
    ensures { result ≡ with_mark marks k }
{
    if 32 <= k {
        return marks;
    }
    if marked(marks, k) {
        return marks;
    }
    marks + mark(k)
}

// How many of the first n bits are set.
pub fn count_below(marks: u32, n: usize) -> usize
    ensures { result ≡ count_below marks n }
{
    if n < 32 {
        return u32::count_ones(marks % mark(n)) as usize;
    }
    u32::count_ones(marks) as usize
}
