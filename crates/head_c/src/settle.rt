// What the end of a phase settles in a ring of two rounds, from the lists where they stand in the block: none is copied. Entries are
// decided by a reference list, as `settle_position` decides them from lists by value.
ghost use Rattle.std.specs.Prelude.{◌≡◌, false, [], ℕ, ◌+◌, ◌≤◌, ◌<◌, length, get_or};
ghost use Rattle.fields.specs.Bytes.{signed_of};
ghost use Rattle.terms.specs.Positions.{eq_z};
ghost use Rattle.entries.specs.Entries.{entry_at};
ghost use Rattle.terms.specs.Counting.{Each, bit};
ghost use Rattle.terms.specs.Entry.{Entry};
ghost use Rattle.terms.specs.Refused.{numbered};
ghost use Rattle.convergence.specs.Settling.{two_round_rule};
ghost use Rattle.convergence.specs.Trust.{trusted};
ghost use Rattle.settle_trust.specs.Received.{given_by};
ghost use Rattle.settle_trust.specs.Cells.{CellOf, HoldsEach, column_of, decided};
ghost use Rattle.settle_midpoint.specs.Answers.{settling};
ghost use Rattle.settle_position.specs.Reference.{Compares};
ghost use Rattle.settle_position.specs.Deciding.{Prepared};
ghost use Rattle.head_c.specs.Blocks.{IsBlock};
ghost use Rattle.head_c.specs.Steps.{row_words, rows_in};

use crate::place;
use settle_midpoint::Kept;
use settle_position::{Comparison, Deciding};
use settle_trust::Links;
use terms::{Family, HEADS, Refusal, Words};

// The words of the list of link k.
fn row_in(h: &[u32], k: usize) -> &[u32]
    requires { IsBlock h.now × (k < 32) }
    ensures { result.now ≡ row_words h.now k }
{
    let from = place::LISTS + terms::HEADS * k;
    &h[from..from + terms::HEADS]
}

// One more for each entry at which two lists have the same number.
fn add_same(a: &[u32], b: &[u32], same: &mut Words)
    requires { (length a.now ≡ 32) × (length b.now ≡ 32) × (length same.old ≡ 32) × Each 32 (λ j. get_or same.old j 0 < 32) }
    ensures { (length same.new ≡ 32) × Each 32 (λ j. get_or same.new j 0
        ≡ get_or same.old j 0 + bit (eq_z (signed_of (get_or a.now j 0)) (signed_of (get_or b.now j 0)))) }
{
    for (j, s) in same.iter_mut().enumerate() {
        *s += (a[j] == b[j]) as u32;
    }
}

// How the lists of the first n links stand to that of the reference.
fn compare_in(h: &[u32], marks: &Words, n: usize, reference: usize) -> Comparison
    requires { IsBlock h.now × (n ≤ 32) × (reference < 32) }
    ensures { Compares n marks.now (rows_in h.now) reference result }
{
    let word = marks[reference];
    let row = row_in(h, reference);
    let mut alike: u8 = 0;
    let mut apart: u8 = 0;
    let mut same = [0u32; HEADS];
    for k in 0..n {
        alike += (marks[k] == word) as u8;
        apart += settle_position::is_apart(marks[k], word) as u8;
        if marks[k] == word {
            add_same(row_in(h, k), row, &mut same);
        }
    }
    Comparison { alike, apart, same }
}

// The cell of entry j of the list of link k, with these marks.
fn cell_at(h: &[u32], k: usize, marks: u32, j: usize) -> u64
    requires { IsBlock h.now × (k < 32) × (j < 32) }
    ensures { CellOf result (entry_at marks (get_or (rows_in h.now) k []) j) }
{
    if marks::marked(marks, j) {
        return 1 + h[place::LISTS + terms::HEADS * k + j] as u64;
    }
    0
}

// The cells of entry j of the first n lists.
fn column_in(h: &[u32], marks: &Words, n: usize, j: usize, cells: &mut [u64; HEADS])
    requires { IsBlock h.now × (n ≤ 32) × (j < 32) × (length cells.old ≡ 32) }
    ensures { (length cells.new ≡ 32) × HoldsEach n cells.new (column_of marks.now (rows_in h.now) j) }
{
    for k in 0..n {
        cells[k] = cell_at(h, k, marks[k], j);
    }
}

// The cell of the entry that the first n lists decide; `cells` is room to work in.
fn search_in(
    h: &[u32],
    marks: &Words,
    n: usize,
    need: usize,
    j: usize,
    cells: &mut [u64; HEADS],
) -> u64
    requires { IsBlock h.now × (n ≤ 32) × (j < 32) × (length cells.old ≡ 32) }
    ensures { (length cells.new ≡ 32) × CellOf result (decided false n need (column_of marks.now (rows_in h.now) j)) }
{
    column_in(h, marks, n, j, cells);
    settle_trust::agreed_cell(cells, n, need)
}

// The cell of trusted entry j: from the reference alone if that decides, else by a search of the lists.
fn cell_in(
    h: &[u32],
    marks: &Words,
    reference: usize,
    same: &Words,
    d: Deciding,
    j: usize,
    cells: &mut [u64; HEADS],
) -> u64
    requires { IsBlock h.now × (reference < 32) × (j < 32) × (d.count ≤ 32) × (length cells.old ≡ 32) }
    ensures { (length cells.new ≡ 32)
        × ((E : ℕ → Entry) → Prepared E (rows_in h.now) marks.now (get_or (rows_in h.now) reference []) same.now d
        → CellOf result (E j)) }
{
    if marks::marked(d.confessed, j) {
        return 0;
    }
    let x = cell_at(h, reference, d.word, j);
    if settle_position::decides(x, d.need, d.alike, d.apart, same[j]) {
        return x;
    }
    if settle_position::lacks(x, d.need, d.alike, d.apart, same[j]) {
        return 0;
    }
    search_in(h, marks, d.count as usize, d.need as usize, j, cells)
}

// The new position from the lists in the block, with the first link that gave one as reference; `up`: whether an odd sum is rounded up.
pub(crate) fn settle_lists(h: &[u32], links: Links, n: u8, f: u8, up: bool) -> Result<Kept, Refusal>
    requires { IsBlock h.now }
    ensures { numbered result ≡ settling (bit up) n (two_round_rule f) (trusted n f (given_by links (rows_in h.now))) }
{
    let count = terms::at_most_32(n as usize);
    let first = (u32::trailing_zeros(links.listed) % 32) as usize;
    let marks = settle_trust::all_marks(links, n);
    let compared = compare_in(h, &marks, count, first);
    let same = compared.same;
    let d = Deciding {
        count: count as u8,
        need: settle_trust::lists_needed(links.confessed, n, f) as u8,
        confessed: links.confessed,
        word: marks[first],
        alike: compared.alike,
        apart: compared.apart,
    };
    let mut cells = [0u64; HEADS];
    let mut positions = [0i32; HEADS];
    let mut len: usize = 0;
    for j in 0..count {
        let x = cell_in(h, &marks, first, &same, d, j, &mut cells);
        len = settle_midpoint::place(settle_trust::entry_of(x), &mut positions, len);
    }
    settle_midpoint::middle_in(&positions, len, Family::TwoRounds, n, f, up)
}
