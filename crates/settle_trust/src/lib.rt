// Support and trusted entries, from what the links gave in a confession round. The search holds mark words, and each entry as one number,
// its cell.
#![tactic(auto)]

ghost use Rattle.std.specs.Prelude.{◌≡◌, ◌+◌, ◌-◌, ◌≤◌, ◌<◌, min, ℕ, length, get_or, List};
ghost use Rattle.marks.specs.Marks.{count_below, bit_of};
ghost use Rattle.entries.specs.Entries.{entry_at};
ghost use Rattle.entries.specs.Tables.{mark, value_of, table_of};
ghost use Rattle.settle_trust.specs.Cells.{marks_given, marks_to, cell_for, cell_entry, CellOf, column_of, HoldsEach, equal_to, is_another, AgreedCell, decided};
ghost use Rattle.settle_trust.specs.Voting.{Leads};
ghost use Rattle.convergence.specs.Trust.{support, trusted};
ghost use Rattle.settle_trust.specs.Received.{given_by};

use terms::{Entry, HEADS, Lists, Numbers, Table, Words};

// Which links confessed, which gave a list, and the mark words of the lists, whose numbers are apart.
#[derive(Clone, Copy)]
pub struct Links {
    pub confessed: u32,
    pub listed: u32,
    pub marks: Words,
}

// How many lists have to agree on a position for it to be trusted; 0 if the confessions alone reach n - f.
pub fn lists_needed(confessed: u32, n: u8, f: u8) -> usize
    ensures { result ≡ n - f - count_below confessed (min n 32) }
{
    let c = marks::count_below(confessed, terms::at_most_32(n as usize));
    if n <= f {
        return 0;
    }
    let reach = (n - f) as usize;
    if reach <= c { 0 } else { reach - c }
}

// The cell of a position: one more than its word. The cell of a null entry is 0.
fn cell_of(v: i32) -> u64
    ensures { result ≡ cell_for (Some v) }
{
    1 + fields::unsigned(v) as u64
}

// The mark word of what a link gave: that of its list, or 0.
fn marks_given(confessed: bool, listed: bool, marks: u32) -> u32
    ensures { result ≡ marks_given confessed listed marks }
{
    if confessed {
        return 0;
    }
    if listed { marks } else { 0 }
}

// The mark words of what the first n links gave, and 0 from there on.
pub fn all_marks(links: Links, n: u8) -> Words
    ensures { result ≡ marks_to links (min n 32) }
{
    let count = terms::at_most_32(n as usize);
    let mut marks = [0u32; HEADS];
    for k in 0..count {
        let confessed = marks::marked(links.confessed, k);
        let listed = marks::marked(links.listed, k);
        marks[k] = marks_given(confessed, listed, links.marks[k]);
    }
    marks
}

// The cell of entry j of a list with these marks.
pub fn entry_cell(marks: u32, list: &Numbers, j: usize) -> u64
    ensures { CellOf result (entry_at marks list.now j) }
{
    if marks::marked(marks, j) {
        if j < HEADS {
            return cell_of(list[j]);
        }
    }
    0
}

// The mark of the entry that a cell holds.
fn mark_of(x: u64) -> u32
    ensures { result ≡ mark (cell_entry x) }
{
    if x == 0 { 0 } else { 1 }
}

// The value of the entry that a cell holds.
fn value_of(x: u64) -> i32
    ensures { result ≡ value_of (cell_entry x) }
{
    if x == 0 {
        0
    } else {
        fields::signed(((x - 1) % 4294967296) as u32)
    }
}

// The entry that a cell holds.
pub fn entry_of(x: u64) -> Entry
    ensures { result ≡ cell_entry x }
{
    if x == 0 {
        return None;
    }
    Some(value_of(x))
}

// ---- From what the links gave in a confession round to the trusted entries: support, and the one position that enough links support.

// The cells of entry j of the first n lists.
fn column(lists: &Lists, marks: &Words, n: usize, j: usize, cells: &mut [u64; HEADS])
    requires { (n ≤ 32) × (n ≤ length cells.old) }
    ensures { HoldsEach n cells.new (column_of marks.now lists.now j) }
{
    for k in 0..n {
        cells[k] = entry_cell(marks[k], &lists[k], j);
    }
}

// How many of the first n cells are x. Each adds 1 or 0, without a branch, so that many are compared at once: a count of those that a
// filter lets through was tried, and took more than twice as long.
fn equal_to(cells: &[u64; HEADS], n: usize, x: u64) -> usize
    requires { n ≤ 32 }
    ensures { result ≡ equal_to n cells.now x }
{
    let mut c: usize = 0;
    for cell in &cells[..n] {
        c += (*cell == x) as usize;
    }
    c
}

// Whether the cell x is another than the one found, and is in `need` lists or more.
fn is_another(cells: &[u64; HEADS], n: usize, need: usize, found: u64, x: u64) -> bool
    requires { n ≤ 32 }
    ensures { result ≡ is_another n need cells.now found x }
{
    if x == 0 {
        return false;
    }
    if x == found {
        return false;
    }
    need <= equal_to(cells, n, x)
}

// A vote among cells: the one that leads, by how many, and how many are not null.
#[derive(Clone, Copy)]
struct Vote {
    leader: u64,
    lead: usize,
    some: usize,
}

// The vote after one cell more: it leads if none did, it joins the leader, or it takes from its lead.
fn after_cell(v: Vote, x: u64) -> Vote
    requires { (v.lead < 32) × (v.some < 32) }
    ensures { (result.lead ≤ v.lead + 1) × (result.some ≤ v.some + 1)
        × ((cells : List ℕ) (k : ℕ) → x ≡ get_or cells k 0 → Leads k cells v → Leads (k + 1) cells result) }
{
    if x == 0 {
        return v;
    }
    let some = v.some + 1;
    if v.lead == 0 {
        return Vote {
            leader: x,
            lead: 1,
            some,
        };
    }
    let leader = v.leader;
    if x == leader {
        return Vote {
            leader,
            lead: v.lead + 1,
            some,
        };
    }
    Vote {
        leader,
        lead: v.lead - 1,
        some,
    }
}

// The vote among the first n cells.
fn voted(cells: &[u64; HEADS], n: usize) -> Vote
    requires { n ≤ 32 }
    ensures { Leads n cells.now result }
{
    let mut v = Vote {
        leader: 0,
        lead: 0,
        some: 0,
    };
    for x in &cells[..n] {
        v = after_cell(v, *x);
    }
    v
}

// The only number but 0 that is `need` times or more among the first n cells; 0 if there is none, or several. What is there so often is
// an early one, so the search ends if fewer than `need` are left.
fn searched(cells: &[u64; HEADS], n: usize, need: usize) -> u64
    requires { (n ≤ 32) × (0 < need) }
    ensures { AgreedCell n need cells.now result }
{
    let mut found: u64 = 0;
    for x in &cells[..(n + 1).saturating_sub(need)] {
        if is_another(cells, n, need, found, *x) {
            if found != 0 {
                return 0; // a second one
            }
            found = *x;
        }
    }
    found
}

// The same by a vote: if `need` is more than half of the cells that are not 0, only the leader can be so many.
fn only(cells: &[u64; HEADS], n: usize, need: usize) -> u64
    requires { (n ≤ 32) × (0 < need) }
    ensures { AgreedCell n need cells.now result }
{
    let v = voted(cells, n);
    if need <= v.some / 2 {
        return searched(cells, n, need);
    }
    if need <= equal_to(cells, n, v.leader) {
        return v.leader;
    }
    0
}

// What the first n cells agree on, whatever they hold, if `need` of them have to: the only number but 0 that is so often among them, or 0.
pub fn agreed_cell(cells: &[u64; HEADS], n: usize, need: usize) -> u64
    ensures { AgreedCell (min n 32) need cells.now result }
{
    if need == 0 {
        return 0;
    }
    only(cells, terms::at_most_32(n), need)
}

// The cell of trusted entry j among the first n links, from their lists, the mark words of these, and how many of them have to agree.
pub fn trusted_cell(
    lists: &Lists,
    marks: &Words,
    confessed: u32,
    n: usize,
    need: usize,
    j: usize,
) -> u64
    ensures { CellOf result (decided (bit_of confessed j) (min n 32) need (column_of marks.now lists.now j)) }
{
    if marks::marked(confessed, j) {
        return 0;
    }
    let mut cells = [0u64; HEADS];
    column(lists, marks, terms::at_most_32(n), j, &mut cells);
    agreed_cell(&cells, n, need)
}

// The support of the position u for head j among n links.
pub fn support(lists: Lists, links: Links, n: u8, j: usize, u: i32) -> usize
    ensures { result ≡ support n (given_by links lists) j u }
{
    let count = terms::at_most_32(n as usize);
    let given = all_marks(links, n);
    let mut cells = [0u64; HEADS];
    column(&lists, &given, count, j, &mut cells);
    marks::count_below(links.confessed, count) + equal_to(&cells, count, cell_of(u))
}

// Trusted entry j.
pub fn trusted_entry(lists: Lists, links: Links, n: u8, f: u8, j: usize) -> Entry
    ensures { result ≡ trusted n f (given_by links lists) j }
{
    let need = lists_needed(links.confessed, n, f);
    let count = terms::at_most_32(n as usize);
    let given = all_marks(links, n);
    entry_of(trusted_cell(&lists, &given, links.confessed, count, need, j))
}

// The trusted entries of heads 0 .. n - 1.
pub fn trusted_table(lists: Lists, links: Links, n: u8, f: u8) -> Table
    ensures { result ≡ table_of n (trusted n f (given_by links lists)) }
{
    let need = lists_needed(links.confessed, n, f);
    let count = terms::at_most_32(n as usize);
    let given = all_marks(links, n);
    let mut marks: u32 = 0;
    let mut entries = [0i32; HEADS];
    for j in 0..count {
        let x = trusted_cell(&lists, &given, links.confessed, count, need, j);
        marks += mark_of(x) << j;
        entries[j] = value_of(x);
    }
    Table { marks, entries }
}
