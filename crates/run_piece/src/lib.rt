// One step over a piece of a run file, which may be cut anywhere, down to one byte: a record that is whole in the piece is taken where it
// is; one that is cut is gathered first.
#![tactic(auto)]

ghost use Rattle.std.specs.Prelude.{true, ◌++◌, ◌≡◌, ◌+◌, ◌≤◌, min, length, take};
ghost use Rattle.run_state.specs.Memory.{memory_lent};
ghost use Rattle.run_state.specs.Changes.{halted, with_pair_planted};
ghost use Rattle.run_record.specs.Next.{allowed_to};
ghost use Rattle.run_piece.specs.Steps.{Quiet, Used, Reads, Waits, Passes, plant_size, plant_passed, is_settled, is_calm};
ghost use Rattle.run_piece.specs.Inner.{Missing, BeginsWhole, headed_to, RecordTaken};

use frame_slots::{PlantedBytes, PlantedLengths};
use run_judge::Kind;
use run_record::RecordResult;
use run_spec::Pair;
use run_state::{CARRY, Carry, Player};
use terms::{Lists, Positions, Refusal, Words};
use texts::Text;

// What comes of a piece: the player after it, how many of its bytes were taken, and the line that they show, if any.
#[derive(Clone, Copy)]
pub struct FeedResult {
    pub player: Player,
    pub used: usize,
    pub text: Text,
}

// How many bytes are missing: to the end of the header, or to the end of the record.
fn missing(have: usize, carry: &[u8]) -> usize
    ensures { Missing have carry.now result }
{
    if have < 4 {
        return 4 - have;
    }
    let len = fields::half_at(carry, 0) as usize;
    if len <= have {
        return 1;
    }
    len - have
}

// Puts bytes after those that are there.
fn gather(carry: &mut [u8], have: usize, bytes: &[u8])
    requires { have + length bytes.now ≤ length carry.old }
    ensures { take (have + length bytes.now) carry.new ≡ take have carry.old ++ bytes.now }
{
    fields::put_bytes(carry, have, bytes);
}

// Whether a piece begins with a record, its header at least, and has as many bytes as the header says.
fn is_whole(p: Player, bytes: &[u8]) -> bool
    ensures { result ≡ true → BeginsWhole p bytes.now }
{
    if p.have != 0 {
        return false;
    }
    let size = fields::half_at(bytes, 0) as usize;
    4 <= size && size <= bytes.len()
}

// The player with more of a record that is not whole.
fn holding(p: Player, have: usize) -> Player
    ensures { result ≡ halted p have p.fault }
{
    let mut out = p;
    out.have = have;
    out
}

// The player with a record's header.
fn headed(p: Player, bytes: &[u8]) -> Player
    ensures { result ≡ headed_to p (allowed_to p bytes.now) }
{
    if run_record::stands(p, bytes) {
        return holding(p, 4);
    }
    run_state::stop(p, Refusal::BadRunRecord.number())
}

// Bytes that show nothing.
pub fn quiet(player: Player, used: usize) -> FeedResult
    ensures { Quiet player used result }
{
    FeedResult {
        player,
        used,
        text: texts::empty(),
    }
}

// Bytes that are a record.
fn taken(t: RecordResult, used: usize) -> FeedResult
    ensures { RecordTaken t used result }
{
    let player = t.player;
    let text = t.text;
    FeedResult { player, used, text }
}

// The first n bytes.
fn front(bytes: &[u8], n: usize) -> &[u8]
    requires { n ≤ length bytes.now }
    ensures { result.now ≡ take n bytes.now }
{
    &bytes[..n]
}

// Gathers bytes of a record that is cut, to the end of its header or of the record at most.
fn take_part(
    p: Player,
    rest: &[u8],
    carry: &mut Carry,
    positions: &mut Positions,
    marks: &mut Words,
    lists: &mut Lists,
    planted: &mut PlantedBytes,
    lengths: &mut PlantedLengths,
) -> FeedResult
    requires { p.fault ≡ 0 }
    ensures used { Used rest.now result }
    ensures reads { Reads p rest.now result
        carry.old (memory_lent positions.old marks.old lists.old planted.old lengths.old)
        carry.new (memory_lent positions.new marks.new lists.new planted.new lengths.new) }
{
    let have = p.have;
    if CARRY <= have {
        return quiet(p, rest.len());
    }
    let want = missing(have, carry);
    let used = terms::least(terms::least(want, CARRY - have), rest.len());
    gather(carry, have, front(rest, used));
    let now = have + used;
    if used < want {
        return quiet(holding(p, now), used);
    }
    if have < 4 {
        return quiet(headed(p, carry), used);
    }
    let whole = front(carry, now);
    let t = run_record::take_record(p, whole, positions, marks, lists, planted, lengths);
    taken(t, used)
}

// Planted records passed: the player after them, and how many bytes they take.
#[derive(Clone, Copy)]
pub struct PassResult {
    pub player: Player,
    pub used: usize,
}

// A planted record passed: how many bytes it takes, and the last planted pair after it.
#[derive(Clone, Copy)]
pub struct PlantResult {
    pub used: usize,
    pub pair: Pair,
}

// The size of the planted record at the front of a piece; 0 if there is no whole one.
fn plant_size(bytes: &[u8]) -> usize
    ensures { result ≡ plant_size bytes.now }
{
    let len = bytes.len();
    if len < 6 {
        return 0;
    }
    if fields::half_at(bytes, 2) != Kind::Plant as u16 {
        return 0;
    }
    let size = fields::half_at(bytes, 0);
    if len < size as usize {
        return 0;
    }
    if !run_judge::is_plant_length(size) {
        return 0;
    }
    size as usize
}

// Takes the planted record at the front of a piece, if there is a whole one that has no fault. It shows nothing. Any other record is left.
pub fn pass_plant(
    n: u8,
    m: u8,
    struck: u64,
    previous: Pair,
    rest: &[u8],
    planted: &mut PlantedBytes,
    lengths: &mut PlantedLengths,
) -> PlantResult
    ensures used_value { result.used ≡ plant_passed n m struck previous rest.now }
    ensures passes { (p : Player) → Waits p n m struck previous → Passes p rest.now (record { player = with_pair_planted p result.pair; used = result.used })
        planted.old lengths.old planted.new lengths.new }
{
    let used = plant_size(rest);
    if used == 0 {
        return PlantResult {
            used: 0,
            pair: previous,
        };
    }
    if run_judge::plant_fault(rest, n, m, struck, previous).is_err() {
        return PlantResult {
            used: 0,
            pair: previous,
        };
    }
    let next = run_record::plant_in(front(rest, used), planted, lengths);
    PlantResult { used, pair: next }
}

// One step: a whole record, or bytes of one that is cut. After a fault nothing is read. How many bytes it takes is free: one at least, if
// there are any, and no more than show one line.
pub fn advance(
    p: Player,
    rest: &[u8],
    carry: &mut Carry,
    positions: &mut Positions,
    marks: &mut Words,
    lists: &mut Lists,
    planted: &mut PlantedBytes,
    lengths: &mut PlantedLengths,
) -> FeedResult
    ensures used { Used rest.now result }
    ensures reads { Reads p rest.now result
        carry.old (memory_lent positions.old marks.old lists.old planted.old lengths.old)
        carry.new (memory_lent positions.new marks.new lists.new planted.new lengths.new) }
{
    if p.fault != 0 {
        return quiet(p, rest.len());
    }
    if is_whole(p, rest) {
        let used = fields::half_at(rest, 0) as usize;
        let whole = front(rest, used);
        let t = run_record::take_record(p, whole, positions, marks, lists, planted, lengths);
        return taken(t, used);
    }
    take_part(p, rest, carry, positions, marks, lists, planted, lengths)
}

// Whether the ring has agreed, nothing is planted in the pending round, and the player is between records and has no fault.
fn is_settled(p: Player) -> bool
    ensures { result ≡ is_settled p }
{
    if !p.agreed {
        return false;
    }
    if !p.pending {
        return false;
    }
    if p.pair.some {
        return false;
    }
    if p.have != 0 {
        return false;
    }
    p.fault == 0
}

// Whether a piece begins with a whole round record that has no fault, in a ring that has agreed, when nothing is planted in the pending
// round. Such a record changes the player alone.
pub fn is_calm(p: Player, bytes: &[u8]) -> bool
    ensures { result ≡ is_calm p bytes.now }
{
    if !is_settled(p) {
        return false;
    }
    if bytes.len() < 8 {
        return false;
    }
    if fields::half_at(bytes, 0) != 8 {
        return false;
    }
    if fields::half_at(bytes, 2) != Kind::Round as u16 {
        return false;
    }
    let family = p.family;
    run_judge::round_fault(family, bytes, p.n, p.f, p.given).is_ok()
}
