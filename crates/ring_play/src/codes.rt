// What all receivers of a confession round share: the lists that every head hears are compared once, and each receiver adds what is planted
// to it.
ghost use Rattle.std.specs.Prelude.{◌≡◌, ℤ, ◌%◌, ◌^◌, ◌+◌, ◌-◌, ◌*◌, ◌<◌, ◌≤◌, true, false, pos, if◌then◌else◌, nat_eq, nat_le, slice_index, slice_index_or};
ghost use Rattle.terms.specs.Positions.{eq_z};
ghost use Rattle.marks.specs.Marks.{bit_of};
ghost use Rattle.terms.specs.Counting.{Each, sum, bit};
ghost use Rattle.settle_trust.specs.Received.{given_by};
ghost use Rattle.ring_play.specs.Inner.Codes.{no_code, entry_of, code_at, code_taken, holds, Tallied};
ghost use Rattle.ring_play.specs.Inner.Shares.{Shares};
ghost use Rattle.ring_play.specs.Inner.Told.{settled_at};
ghost use Rattle.ring_play.specs.Inner.Votes.{Voted, CodeLeads, gives_list};

use crate::{Stage, round};
use settle_trust::Links;
use terms::{Entry, Family, HEADS, Lists, Numbers, Words};

// A number that is no position: the code of a null entry.
const NONE: i32 = 1000001;

// ---- Lists as codes.

// The code of an entry with the number v, by its mark.
fn code(marks: u32, j: usize, v: i32) -> i32
    ensures { result ≡ (if bit_of marks j then v else no_code) }
{
    if marks::marked(marks, j) { v } else { NONE }
}

// The codes of the first n entries of a list.
fn codes_of(marks: u32, list: &Numbers, n: usize) -> Numbers
    requires { n ≤ 32 }
    ensures { Each n (λ j. slice_index_or result j (pos 0) ≡ code_at marks list.now j) }
{
    let mut codes = [0i32; HEADS];
    for j in 0..n {
        codes[j] = code(marks, j, list[j]);
    }
    codes
}

// One more for each of the first n entries whose code, which `at` gives, is the one that it is compared with.
fn count_same<F: Fn(usize) -> i32>(at: F, codes: &Numbers, same: &mut Words, n: usize)
    requires { (n ≤ 32) × Each n (λ j. F.pre at j) }
    ensures { Each n (λ j. (x : ℤ) × F.post at j x
        × (slice_index same.new j ≡ (slice_index same.old j + bit (eq_z x (slice_index_or codes.now j (pos 0)))) % 2 ^ 32)) }
{
    for j in 0..n {
        same[j] = same[j].wrapping_add((at(j) == codes[j]) as u32);
    }
}

// One more for each of the first n entries of a list that has the code. The codes of a list without nulls are its numbers.
pub(crate) fn tally(marks: u32, list: &Numbers, codes: &Numbers, same: &mut Words, n: usize)
    requires { n ≤ 32 }
    ensures { Tallied n marks list.now codes.now same.old same.new }
{
    if marks::all_marked(marks, n) {
        count_same(|j| list[j], codes, same, n);
    } else {
        count_same(|j| code(marks, j, list[j]), codes, same, n);
    }
}

// ---- The code that most lists have, by a majority vote.

// The code that leads after a vote for x, if c led by l.
fn leader(x: i32, c: i32, l: u32) -> i32
    ensures { result ≡ (if nat_eq l 0 then x else c) }
{
    if l == 0 { x } else { c }
}

// By how much it leads then.
fn lead(x: i32, c: i32, l: u32) -> u32
    requires { l < 4294967295 }
    ensures { result ≡ (if nat_eq l 0 then 1 else (if eq_z x c then l + 1 else l - 1)) }
{
    if l == 0 {
        return 1;
    }
    if x == c {
        return l + 1;
    }
    l - 1
}

// A row of codes votes at each of the first n entries.
fn vote(row: &Numbers, codes: &mut Numbers, leads: &mut Words, n: usize)
    requires { (n ≤ 32) × Each n (λ j. slice_index leads.old j < 4294967295) }
    ensures { Each n (λ j. Voted (slice_index_or row.now j (pos 0)) (slice_index_or codes.old j (pos 0)) (slice_index leads.old j)
        (slice_index_or codes.new j (pos 0)) (slice_index leads.new j)) }
{
    for j in 0..n {
        let x = row[j];
        let c = codes[j];
        let l = leads[j];
        codes[j] = leader(x, c, l);
        leads[j] = lead(x, c, l);
    }
}

// A list votes.
fn vote_for(marks: u32, list: &Numbers, codes: &mut Numbers, leads: &mut Words, n: usize)
    requires { (n ≤ 32) × Each n (λ j. slice_index leads.old j < 4294967295) }
    ensures { Each n (λ j. Voted (code_at marks list.now j) (slice_index_or codes.old j (pos 0)) (slice_index leads.old j)
        (slice_index_or codes.new j (pos 0)) (slice_index leads.new j)) }
{
    if marks::all_marked(marks, n) {
        vote(list, codes, leads, n);
    } else {
        let row = codes_of(marks, list, n);
        vote(&row, codes, leads, n);
    }
}

// ---- The lists that all receivers hear.

// Whether link k gives a list.
fn gives_list(confessed: u32, listed: u32, k: usize) -> bool
    ensures { result ≡ gives_list confessed listed k }
{
    if marks::marked(confessed, k) {
        return false;
    }
    marks::marked(listed, k)
}

// Each list votes; answers how many there are.
fn vote_all(lists: &Lists, links: Links, n: usize, codes: &mut Numbers, leads: &mut Words) -> usize
    requires { (n ≤ 32) × Each n (λ j. slice_index leads.old j ≡ 0) }
    ensures { (result ≤ n)
        × Each n (λ j. CodeLeads (λ w. sum n (λ k. holds j w (given_by links lists.now k))) result
        (slice_index_or codes.new j (pos 0)) (slice_index leads.new j)) }
{
    let mut count: usize = 0;
    for k in 0..n {
        if gives_list(links.confessed, links.listed, k) {
            vote_for(links.marks[k], &lists[k], codes, leads, n);
            count += 1;
        }
    }
    count
}

// For each entry, how many lists have the code.
fn tally_all(lists: &Lists, links: Links, n: usize, codes: &Numbers, same: &mut Words)
    requires { (n ≤ 32) × Each n (λ j. slice_index same.old j ≡ 0) }
    ensures { Each n (λ j. slice_index same.new j
        ≡ sum n (λ k. holds j (slice_index_or codes.now j (pos 0)) (given_by links lists.now k))) }
{
    for k in 0..n {
        if gives_list(links.confessed, links.listed, k) {
            tally(links.marks[k], &lists[k], codes, same, n);
        }
    }
}

// Whether the codes that lead leave all others with fewer than `most` of `count` lists. Entries of links that confessed are never trusted.
fn are_alone(leads: &Words, confessed: u32, n: usize, count: usize, most: usize) -> bool
    requires { (n ≤ 32) × (most ≤ 255) × (count ≤ n) × Each n (λ j. slice_index leads.now j ≤ count) }
    ensures { result ≡ true → Each n (λ j. bit_of confessed j ≡ false → count < slice_index leads.now j + 2 * most) }
{
    (0..n).all(|j| marks::marked(confessed, j) || count < leads[j] as usize + 2 * most)
}

// No code for the entries of links that confessed.
fn drop_confessed(codes: &mut Numbers, confessed: u32, n: usize)
    requires { n ≤ 32 }
    ensures { Each n (λ j. slice_index_or codes.new j (pos 0) ≡ (if bit_of confessed j then no_code else slice_index_or codes.old j (pos 0))) }
{
    for j in 0..n {
        if marks::marked(confessed, j) {
            codes[j] = NONE;
        }
    }
}

// What the links gave all receivers shows of the trusted entries, if `struck` links give each receiver something else: for each entry the
// code that most lists have, and how many have it. Answers no if another position could be trusted too. When it answers no is free: each
// receiver then settles as a head does, and that shows in the time alone.
pub(crate) fn share(
    lists: &Lists,
    links: Links,
    n: u8,
    f: u8,
    struck: usize,
    codes: &mut Numbers,
    same: &mut Words,
) -> bool
    requires { n ≤ 32 }
    ensures { result ≡ true → Shares n f struck (given_by links lists.now) codes.new same.new }
{
    let heads = n as usize;
    let need = settle_trust::lists_needed(links.confessed, n, f);
    if need <= struck {
        return false;
    }
    let mut leads = [0u32; HEADS];
    let count = vote_all(lists, links, heads, codes, &mut leads);
    if !are_alone(&leads, links.confessed, heads, count, need - struck) {
        return false;
    }
    *same = [0u32; HEADS];
    tally_all(lists, links, heads, codes, same);
    drop_confessed(codes, links.confessed, heads);
    true
}

// ---- A receiver.

// The code c, if s lists have it and no more are needed, and the entry is not dropped; else no code.
fn picked(c: i32, need: u32, s: u32, dropped: bool) -> i32
    ensures { result ≡ (if dropped then no_code else (if nat_le need s then c else no_code)) }
{
    if dropped {
        return NONE;
    }
    if need <= s { c } else { NONE }
}

// Takes the codes of a receiver's trusted entries: of those that enough lists have, but for the entries of links that confessed. Answers
// whether all are as they were.
pub(crate) fn trust_codes(
    codes: &Numbers,
    same: &Words,
    need: u32,
    confessed: u32,
    n: usize,
    taken: &mut Numbers,
) -> bool
    requires { n ≤ 32 }
    ensures codes { Each n (λ j. slice_index_or taken.new j (pos 0) ≡ code_taken codes.now same.now need confessed j) }
    ensures alike { result ≡ true → Each n (λ j. slice_index_or taken.new j (pos 0) ≡ slice_index_or taken.old j (pos 0)) }
{
    let mut alike = true;
    for j in 0..n {
        let v = picked(codes[j], need, same[j], marks::marked(confessed, j));
        if taken[j] != v {
            alike = false;
        }
        taken[j] = v;
    }
    alike
}

// The entry of a code.
fn entry_of(c: i32) -> Entry
    ensures { result ≡ entry_of c }
{
    if c == NONE {
        return None;
    }
    Some(c)
}

// The position that a receiver settles from the codes of its trusted entries; 0 if it is refused. They are put in order one by one, as a
// head does that closes a round (document 02, A3).
pub(crate) fn settle_codes(s: Stage, codes: &Numbers) -> i32
    ensures { result ≡ settled_at s codes.now }
{
    let n = round::head_count(s);
    let count = n as usize;
    let mut positions = [0i32; HEADS];
    let mut len: usize = 0;
    for c in &codes[..count] {
        len = settle_midpoint::place(entry_of(*c), &mut positions, len);
    }
    let up = terms::rounds_up(s.phase);
    round::position_in(settle_midpoint::middle_in(&positions, len, Family::TwoRounds, n, s.f, up))
}
