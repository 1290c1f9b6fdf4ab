// From what the links gave in a confession round to the new position.
#![tactic(auto)]

ghost use Rattle.std.specs.Prelude.{◌≡◌, true, false, [], ℕ, ◌+◌, ◌%◌, ◌≤◌, ◌<◌, length, get_or};
ghost use Rattle.terms.specs.Counting.{Each, bit};
ghost use Rattle.terms.specs.Entry.{Entry};
ghost use Rattle.terms.specs.Refused.{numbered};
ghost use Rattle.convergence.specs.Settling.{two_round_rule};
ghost use Rattle.convergence.specs.Trust.{trusted};
ghost use Rattle.settle_trust.specs.Received.{given_by};
ghost use Rattle.settle_position.specs.Reference.{same_number, is_apart, Compares, Decides, Lacks};
ghost use Rattle.settle_position.specs.Deciding.{Prepared};
ghost use Rattle.settle_trust.specs.Cells.{CellOf};
ghost use Rattle.settle_midpoint.specs.Orders.{OrderAfter};
ghost use Rattle.settle_midpoint.specs.Answers.{settling};

use settle_midpoint::{Kept, Order};
use settle_trust::Links;
use terms::{Family, HEADS, Lists, Numbers, Refusal, Words};

// How n lists compare with the list of one link, the reference: how many have its mark word, how many another one that is not 0, and for
// each entry how many of the first have its number.
#[derive(Clone, Copy)]
pub struct Comparison {
    pub alike: u8,
    pub apart: u8,
    pub same: Words,
}

// What deciding an entry looks at besides the lists, their marks, the reference list, and how many lists agree with it: worked out once
// when a round is closed. How many lists there are to search, how many have to agree, who confessed, the marks of the reference, how many
// lists have these, and how many have others.
#[derive(Clone, Copy)]
pub struct Deciding {
    pub count: u8,
    pub need: u8,
    pub confessed: u32,
    pub word: u32,
    pub alike: u8,
    pub apart: u8,
}

// One more for each entry at which two lists have the same number.
fn add_same(a: &Numbers, b: &Numbers, same: &mut Words)
    requires { (length same.old ≡ 32) × Each 32 (λ j. get_or same.old j 0 < 32) }
    ensures { (length same.new ≡ 32) × Each 32 (λ j. get_or same.new j 0 ≡ get_or same.old j 0 + bit (same_number a.now b.now j)) }
{
    for j in 0..HEADS {
        same[j] += (a[j] == b[j]) as u32;
    }
}

// Whether a mark word has marks, and others than `word`.
pub fn is_apart(marks: u32, word: u32) -> bool
    ensures { result ≡ is_apart marks word }
{
    if marks == word {
        return false;
    }
    marks != 0
}

// How the lists of the first n links compare with that of the reference.
fn compare(lists: &Lists, marks: &Words, n: usize, reference: usize) -> Comparison
    requires { (n ≤ 32) × (reference < 32) }
    ensures { Compares n marks.now lists.now reference result }
{
    let word = marks[reference];
    let row = lists[reference];
    let mut alike: u8 = 0;
    let mut apart: u8 = 0;
    let mut same = [0u32; HEADS];
    for k in 0..n {
        alike += (marks[k] == word) as u8;
        apart += is_apart(marks[k], word) as u8;
        if marks[k] == word {
            add_same(&lists[k], &row, &mut same);
        }
    }
    Comparison { alike, apart, same }
}

// Whether the cell x of the reference decides: enough lists hold it, and those that may hold another position are too few.
pub fn decides(x: u64, need: u8, alike: u8, apart: u8, same: u32) -> bool
    ensures { (result ≡ true → Decides x need alike apart same) × (result ≡ false → Decides x need alike apart same → ⊥) }
{
    if x == 0 {
        return apart < need;
    }
    if same < need as u32 {
        return false;
    }
    alike as u64 + (apart as u64) < same as u64 + need as u64
}

// Whether there is no trusted position, by the cell x of the reference's list: the lists that may hold it are too few, and so are those
// that may hold another.
pub fn lacks(x: u64, need: u8, alike: u8, apart: u8, same: u32) -> bool
    ensures { result ≡ true → Lacks x need alike apart same }
{
    if x == 0 {
        return false;
    }
    if need as u64 <= same as u64 + apart as u64 {
        return false;
    }
    apart as u64 + (alike as u64) < same as u64 + need as u64
}

// The cell of trusted entry j: from the reference alone if that decides, else by a search of the lists.
fn cell_by(
    lists: &Lists,
    marks: &Words,
    reference: &Numbers,
    same: &Words,
    d: Deciding,
    j: usize,
) -> u64
    requires { j < 32 }
    ensures { (E : ℕ → Entry) → Prepared E lists.now marks.now reference.now same.now d → CellOf result (E j) }
{
    let confesses = marks::marked(d.confessed, j);
    if confesses {
        return 0;
    }
    let x = settle_trust::entry_cell(d.word, reference, j);
    if decides(x, d.need, d.alike, d.apart, same[j]) {
        return x;
    }
    if lacks(x, d.need, d.alike, d.apart, same[j]) {
        return 0;
    }
    settle_trust::trusted_cell(
        lists,
        marks,
        d.confessed,
        d.count as usize,
        d.need as usize,
        j,
    )
}

// What deciding looks at, with the list of the link `reference` (of 32) as reference: if most lists are like it, it decides nearly all
// entries. It goes to the two lent arrays and the answer.
pub fn prepare(
    lists: &Lists,
    links: Links,
    reference: usize,
    n: u8,
    f: u8,
    marks: &mut Words,
    same: &mut Words,
) -> Deciding
    ensures { Prepared (trusted n f (given_by links lists.now)) lists.now marks.new (get_or lists.now (reference % 32) [])
        same.new result }
{
    let first = reference % HEADS;
    let count = terms::at_most_32(n as usize);
    *marks = settle_trust::all_marks(links, n);
    let comparison = compare(lists, marks, count, first);
    let agreeing = comparison.same;
    *same = agreeing;
    Deciding {
        count: count as u8,
        need: settle_trust::lists_needed(links.confessed, n, f) as u8,
        confessed: links.confessed,
        word: marks[first],
        alike: comparison.alike,
        apart: comparison.apart,
    }
}

// Document 02, A3: decides entry j, and puts it in its place in the order at once; answers how many positions there are then. Called from
// entry 0 up, with 32 zeros and none counted at first: after entry j the order holds exactly the positions trusted among entries 0 to j,
// lowest first, equal ones each time.
pub fn decide_entry(
    lists: &Lists,
    marks: &Words,
    reference: &Numbers,
    same: &Words,
    d: Deciding,
    j: usize,
    positions: &mut Numbers,
    len: usize,
) -> usize
    ensures { (E : ℕ → Entry) → Prepared E lists.now marks.now reference.now same.now d
        → OrderAfter j E len positions.old → OrderAfter (j + 1) E result positions.new }
{
    if HEADS <= j {
        return len;
    }
    let x = cell_by(lists, marks, reference, same, d, j);
    settle_midpoint::place(settle_trust::entry_of(x), positions, len)
}

// The new position of n entries, decided and put in order one by one; `up`: whether an odd sum is rounded up.
pub fn settle_entries(
    lists: &Lists,
    marks: &Words,
    reference: &Numbers,
    same: &Words,
    d: Deciding,
    n: u8,
    f: u8,
    up: bool,
) -> Result<Kept, Refusal>
    ensures { (E : ℕ → Entry) → Prepared E lists.now marks.now reference.now same.now d
        → numbered result ≡ settling (bit up) n (two_round_rule f) E }
{
    let count = terms::at_most_32(n as usize);
    let mut positions = [0i32; HEADS];
    let mut len: usize = 0;
    for j in 0..count {
        len = decide_entry(lists, marks, reference, same, d, j, &mut positions, len);
    }
    settle_midpoint::middle_of(Order { len, positions }, Family::TwoRounds, n, f, up)
}

// The new position from what the links gave, with the list of the link `reference` (of 32) as reference.
pub fn settle_by(
    lists: &Lists,
    links: Links,
    reference: usize,
    n: u8,
    f: u8,
    up: bool,
) -> Result<Kept, Refusal>
    ensures { numbered result ≡ settling (bit up) n (two_round_rule f) (trusted n f (given_by links lists.now)) }
{
    let mut marks = [0u32; HEADS];
    let mut same = [0u32; HEADS];
    let d = prepare(lists, links, reference, n, f, &mut marks, &mut same);
    settle_entries(lists, &marks, &lists[reference % HEADS], &same, d, n, f, up)
}

// The same of lists by value.
pub fn settle(lists: Lists, links: Links, n: u8, f: u8, up: bool) -> Result<Kept, Refusal>
    ensures { numbered result ≡ settling (bit up) n (two_round_rule f) (trusted n f (given_by links lists)) }
{
    settle_by(&lists, links, 0, n, f, up)
}
