// A run file as a stream: bytes in any pieces, and its end.
#![tactic(auto)]

ghost use Rattle.std.specs.Prelude.{true, List, [], ◌++◌, ◌≡◌, ℕ, ◌+◌, ◌≤◌, ◌<◌, length, take};
ghost use Rattle.texts.specs.Texts.{bytes_of};
ghost use Rattle.run_state.specs.Memory.{memory_lent, Memory};
ghost use Rattle.run_state.specs.Changes.{with_pair_planted};
ghost use Rattle.run_piece.specs.Advances.{StateAt, AdvancesOnce, Advances};
ghost use Rattle.run_piece.specs.Steps.{Used, Reads, Waits, Passes};
ghost use Rattle.run_stream.specs.Finish.{Finishes, FinishesWith};
ghost use Rattle.run_stream.specs.Pages.{Fills, page_size};
ghost use Rattle.run_spec.specs.Listing.{title};
ghost use Rattle.run_stream.specs.Inner.{ending_of, Follows};

use frame_slots::{PlantedBytes, PlantedLengths};
use run_piece::{FeedResult, PassResult};
use run_spec::Pair;
use run_state::{Carry, Counts, Player};
use terms::{Lists, Positions, Refusal, Words};
use texts::Text;

// A page of the listing, of 256 lines at least.
pub const PAGE: usize = 16384;

pub type Page = [u8; PAGE];

// Past as many bytes a page has no room for a line, of up to 64 bytes.
const FULL: usize = PAGE - 64;

// How the file ends, the last line of a phase, if its end plays one, the last line of all, and the counts when all rounds that are played
// are played.
#[derive(Clone, Copy)]
pub struct FinishResult {
    pub number: u8,
    pub line: Text,
    pub verdict: Text,
    pub since: Counts,
}

// Planted records passed: the last one's pair, and the bytes of all.
fn passed(p: Player, pair: Pair, used: usize) -> PassResult
    ensures { result ≡ record { player = with_pair_planted p pair; used = used } }
{
    PassResult {
        player: run_state::planted_pair(p, pair),
        used,
    }
}

// Whether a planted record may come next.
fn awaits_plants(p: Player) -> bool
    ensures { result ≡ true → Waits p p.n p.listeners p.struck p.pair }
{
    if p.fault != 0 {
        return false;
    }
    if p.have != 0 {
        return false;
    }
    p.pending
}

// Takes the planted records at the front of a piece, as many as follow one another there. They show nothing.
fn pass_plants(
    p: Player,
    bytes: &[u8],
    planted: &mut PlantedBytes,
    lengths: &mut PlantedLengths,
) -> PassResult
    ensures used_in_bounds { result.used ≤ length bytes.now }
    ensures passes { Passes p bytes.now result planted.old lengths.old planted.new lengths.new }
{
    if !awaits_plants(p) {
        return PassResult { player: p, used: 0 };
    }
    let mut pair = p.pair;
    let mut used: usize = 0;
    let n = p.n;
    let m = p.listeners;
    let struck = p.struck;
    // A `while`: a planted record has its own length, and the bytes that are taken are the answer, so that no iterator form is plainer.
    while used < bytes.len() {
        let one = run_piece::pass_plant(n, m, struck, pair, &bytes[used..], planted, lengths);
        pair = one.pair;
        if one.used == 0 {
            return passed(p, pair, used);
        }
        used += one.used;
    }
    passed(p, pair, used)
}

// One step: planted records, or else what `run_piece::advance` takes.
fn step(
    p: Player,
    bytes: &[u8],
    carry: &mut Carry,
    positions: &mut Positions,
    marks: &mut Words,
    lists: &mut Lists,
    planted: &mut PlantedBytes,
    lengths: &mut PlantedLengths,
) -> FeedResult
    ensures used { Used bytes.now result }
    ensures reads { Reads p bytes.now result
        carry.old (memory_lent positions.old marks.old lists.old planted.old lengths.old)
        carry.new (memory_lent positions.new marks.new lists.new planted.new lengths.new) }
{
    let passed = pass_plants(p, bytes, planted, lengths);
    let player = passed.player;
    let used = passed.used;
    if used != 0 {
        return run_piece::quiet(player, used);
    }
    run_piece::advance(
        player, bytes, carry, positions, marks, lists, planted, lengths,
    )
}

// Takes bytes up to the first that show a line, or all of them. How many it takes is free: one at least, if there are any, and no more than
// show one line.
pub fn feed(
    p: Player,
    bytes: &[u8],
    carry: &mut Carry,
    positions: &mut Positions,
    marks: &mut Words,
    lists: &mut Lists,
    planted: &mut PlantedBytes,
    lengths: &mut PlantedLengths,
) -> FeedResult
    ensures used_in_bounds { (result.used ≤ length bytes.now) × (0 < length bytes.now → 0 < result.used) × (result.text.len ≤ 64) }
    ensures by_index { (a : List ℕ) → StateAt a p carry.old (memory_lent positions.old marks.old lists.old planted.old lengths.old)
        → AdvancesOnce a (take result.used bytes.now) p (memory_lent positions.old marks.old lists.old planted.old lengths.old)
        result.player (bytes_of result.text) carry.new (memory_lent positions.new marks.new lists.new planted.new lengths.new) }
{
    let mut player = p;
    let mut used: usize = 0;
    // A `while`: a step takes as many bytes as it finds, and how many were taken is the answer, so that no iterator form is plainer.
    while used < bytes.len() {
        let fed = step(
            player,
            &bytes[used..],
            carry,
            positions,
            marks,
            lists,
            planted,
            lengths,
        );
        player = fed.player;
        used += fed.used;
        let text = fed.text;
        if text.len != 0 {
            return FeedResult { player, used, text };
        }
    }
    run_piece::quiet(player, used)
}

// How the file ends: the number of its first fault, or 13 if it has no start, ends inside a record or inside a phase.
#[tactic(auto, unfolding(crate::specs::Inner::ending_of))]
fn ending(p: Player) -> u8
    ensures { result ≡ ending_of p }
{
    let fault = p.fault;
    if fault != 0 {
        return fault;
    }
    let family = p.family;
    if p.begun && p.have == 0 && run_state::ends_phase(family, p.given) {
        return 0;
    }
    Refusal::BadRunRecord.number()
}

// The end of the file: the pending round is played if it ends well.
pub fn finish(
    p: Player,
    positions: &mut Positions,
    marks: &mut Words,
    lists: &mut Lists,
    planted: &PlantedBytes,
    lengths: &PlantedLengths,
) -> FinishResult
    ensures len_bound { (result.line.len ≤ 64) × (result.verdict.len ≤ 64) }
    ensures by_index { (a carry : List ℕ) → StateAt a p carry (memory_lent positions.old marks.old lists.old planted.now lengths.now)
        → FinishesWith a (memory_lent positions.old marks.old lists.old planted.now lengths.now) result (memory_lent positions.new marks.new lists.new planted.now lengths.now) }
{
    let number = ending(p);
    let verdict = run_listing::verdict_line(number);
    if number == 0 && p.pending {
        let line = run_round::play_round(p, positions, marks, lists, planted, lengths);
        let since = run_state::counts_played(p);
        return FinishResult {
            number,
            line,
            verdict,
            since,
        };
    }
    let since = p.since;
    FinishResult {
        number,
        line: texts::empty(),
        verdict,
        since,
    }
}

// ---- A page of a listing: as many lines as fit into a buffer that the caller writes out. So a program that plays a run file reads, fills
// pages and writes them, and nothing else.

// What comes of a piece: the player after it, how many of its bytes were taken, and how many bytes of the page are filled.
#[derive(Clone, Copy)]
pub struct FillResult {
    pub player: Player,
    pub used: usize,
    pub len: usize,
}

// Before the first byte, with any memory.
pub fn begin() -> Player
    ensures { (carry : List ℕ) (M : Memory) → StateAt [] result carry M }
{
    run_state::unread()
}

// Puts a text after the first bytes of a page, and answers how many are filled then.
fn put(page: &mut [u8], len: usize, t: Text) -> usize
    requires { (len + t.len ≤ length page.old) × (t.len ≤ 64) }
    ensures { (result ≡ len + t.len) × (take result page.new ≡ take len page.old ++ bytes_of t) }
{
    let count = t.len;
    let bytes = t.bytes;
    fields::put_bytes(page, len, &bytes[..count]);
    len + count
}

// Takes the round records at the front of a piece, as many as stand there one after the other, of a ring that has agreed, as long as
// nothing is planted and the page has room for a line. They change the player alone. Puts their lines after the first bytes of a page. How
// many it takes is free: one that is left is taken by `feed`.
fn pass_rounds(
    p: Player,
    bytes: &[u8],
    page: &mut Page,
    from: usize,
    positions: &Positions,
) -> FillResult
    requires { from ≤ page_size }
    ensures used_in_bounds { (result.used ≤ length bytes.now) × (result.len ≤ page_size) }
    ensures follows { Follows p bytes.now positions.now (take from page.old)
        result.player result.used (take result.len page.new) }
{
    let mut player = p;
    let mut used: usize = 0;
    let mut to = from;
    for record in bytes.chunks_exact(8) {
        if FULL < to || !run_piece::is_calm(player, record) {
            break;
        }
        to = put(page, to, run_round::play_agreed(player, positions));
        player = run_state::given_round(player, fields::word_at(record, 4), true);
        used += 8;
    }
    FillResult {
        player,
        used,
        len: to,
    }
}

// Takes bytes of a piece as long as the page has room for a line. How many it takes when the page is full is free. What the page holds
// after its first `len` bytes is free.
pub fn fill(
    p: Player,
    bytes: &[u8],
    page: &mut Page,
    carry: &mut Carry,
    positions: &mut Positions,
    marks: &mut Words,
    lists: &mut Lists,
    planted: &mut PlantedBytes,
    lengths: &mut PlantedLengths,
) -> FillResult
    ensures fills { Fills bytes.now result }
    ensures by_index { (a : List ℕ) → StateAt a p carry.old (memory_lent positions.old marks.old lists.old planted.old lengths.old)
        → Advances a (take result.used bytes.now) p (memory_lent positions.old marks.old lists.old planted.old lengths.old)
        result.player (take result.len page.new) carry.new (memory_lent positions.new marks.new lists.new planted.new lengths.new) }
{
    let mut player = p;
    let mut used: usize = 0;
    let mut len: usize = 0;
    // A `while`: each turn takes as many bytes and shows as many as it finds, so that no iterator form is plainer.
    while used < bytes.len() && len <= FULL {
        let more = feed(
            player,
            &bytes[used..],
            carry,
            positions,
            marks,
            lists,
            planted,
            lengths,
        );
        player = more.player;
        used += more.used;
        let text = more.text;
        len = put(page, len, text);
        let calm = pass_rounds(player, &bytes[used..], page, len, positions);
        player = calm.player;
        used += calm.used;
        len = calm.len;
    }
    FillResult { player, used, len }
}

// The first page: the title. What the page holds after it is free.
pub fn first_page(page: &mut Page) -> usize
    ensures { (result ≤ page_size) × (take result page.new ≡ title) }
{
    put(page, 0, run_listing::title_line())
}

// The last page: what is left to show when the file has ended. What the page holds after it is free.
pub fn last_page(
    p: Player,
    page: &mut Page,
    positions: &mut Positions,
    marks: &mut Words,
    lists: &mut Lists,
    planted: &PlantedBytes,
    lengths: &PlantedLengths,
) -> usize
    ensures upper_bound { result ≤ page_size }
    ensures by_index { (a carry : List ℕ) → StateAt a p carry (memory_lent positions.old marks.old lists.old planted.now lengths.now)
        → Finishes a (memory_lent positions.old marks.old lists.old planted.now lengths.now) (take result page.new) (memory_lent positions.new marks.new lists.new planted.now lengths.now) }
{
    let end = finish(p, positions, marks, lists, planted, lengths);
    let line = end.line;
    let verdict = end.verdict;
    let len = put(page, 0, line);
    put(page, len, verdict)
}
