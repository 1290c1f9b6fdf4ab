// The records of a run file, judged: whether one is allowed here, and its first fault.
#![tactic(auto)]

ghost use Rattle.std.specs.Prelude.{◌≡◌, ◌&&◌, leb, ℕ, ◌<◌, get_or, pos};
ghost use Rattle.terms.specs.Refused.{number_of};
ghost use Rattle.ring_spec.specs.Rounds.{is_receiver, most_rounds};
ghost use Rattle.run_spec.specs.RunFile.{record_kind, is_plant_length, allowed_when, position_in, positions_fit, start_fault, few_marks, round_fault, listeners_fault, strikes_fault, rises, pair_fits, plant_fault};
ghost use Rattle.run_judge.specs.Kinds.{kind_named, Named};

use run_spec::Pair;
use terms::{Family, Numbers, Refusal};

// The kinds of records, with the numbers that name them in a record.
#[derive(Clone, Copy, Debug, PartialEq, Eq)]
pub enum Kind {
    Start = 0x10,
    Round = 0x11,
    Plant = 0x12,
    // Of document 02, A6: the struck listeners of a round.
    Strikes = 0x13,
    // Of document 02, A9: the start of a ring whose phases have one round.
    StartOne = 0x14,
    // Of document 02, A6: the number of listeners.
    Listeners = 0x15,
}

impl Kind {
    // The number of the kind.
    pub fn number(self) -> u16
        ensures { record_kind result ≡ kind_named self }
    {
        self as u16
    }
}

// The kind that a number names, or refusal 13.
impl TryFrom<u16> for Kind {
    type Error = Refusal;

    ghost try_from_gives = { Named };

    fn try_from(number: u16) -> Result<Self, Refusal> {
        match number {
            0x10 => Ok(Kind::Start),
            0x11 => Ok(Kind::Round),
            0x12 => Ok(Kind::Plant),
            0x13 => Ok(Kind::Strikes),
            0x14 => Ok(Kind::StartOne),
            0x15 => Ok(Kind::Listeners),
            _ => Err(Refusal::BadRunRecord),
        }
    }
}

// Phases are numbered 1 to 65,535.
const MOST_PHASES: u32 = 65535;

// Two rounds for each; no file has more.
pub const MOST_ROUNDS: u32 = 131070;

// In a mark word of heads and listeners bits 0 to 31 are heads, and listeners are above: the heads' word is its remainder by this.
pub const HEAD_MARKS: u64 = 4294967296;

// The longest record, a start with 255 positions.
pub const LONGEST: u16 = 1026;

// The longest planted record, with 140 bytes.
const LONGEST_PLANT: u16 = 146;

// Whether a length is from 6, the bytes before what differs in length, up to a longest one.
fn is_up_to(len: u16, longest: u16) -> bool
    ensures { result ≡ (leb 6 len && leb len longest) }
{
    6 <= len && len <= longest
}

// Whether some planted record has this length.
pub fn is_plant_length(len: u16) -> bool
    ensures { result ≡ is_plant_length len }
{
    is_up_to(len, LONGEST_PLANT)
}

// Whether a record of this kind and length is allowed; begun: a start was accepted; first: nothing else was; pending: a round is pending;
// bare: nothing was accepted after its record.
pub fn is_allowed(kind: u16, len: u16, begun: bool, first: bool, pending: bool, bare: bool) -> bool
    ensures { result ≡ allowed_when (record_kind kind) begun first pending bare len }
{
    match Kind::try_from(kind) {
        Ok(Kind::Start | Kind::StartOne) => !begun && is_up_to(len, LONGEST),
        Ok(Kind::Round) => begun && len == 8,
        Ok(Kind::Plant) => pending && is_plant_length(len),
        Ok(Kind::Strikes) => bare && len == 6,
        Ok(Kind::Listeners) => first && len == 5,
        Err(_) => false,
    }
}

// Whether the first n positions of a start record are positions.
fn positions_fit(bytes: &[u8], n: u8) -> bool
    ensures { result ≡ positions_fit bytes.now n }
{
    (0..n as usize).all(|j| entries::is_position_word(fields::word_at(bytes, 6 + 4 * j)))
}

// A whole start record of a ring of either family: 13, 1, 2 or 18, 4.
pub fn start_fault(family: Family, bytes: &[u8]) -> Result<(), Refusal>
    ensures { number_of result ≡ start_fault family bytes.now }
{
    let n = fields::byte_at(bytes, 4);
    let f = fields::byte_at(bytes, 5);
    if bytes.len() != 6 + 4 * (n as usize) {
        return Err(Refusal::BadRunRecord);
    }
    terms::check_size(family, n as u32, f as u32)?;
    if !positions_fit(bytes, n) {
        return Err(Refusal::PositionOutOfRange);
    }
    Ok(())
}

// The positions of a start record.
pub fn first_positions(bytes: &[u8]) -> Numbers
    ensures { (j : ℕ) → j < 32 → get_or result j (pos 0) ≡ position_in bytes.now j }
{
    entries::numbers_at(fields::bytes_from(bytes, 6), 32)
}

// Whether at most f heads are marked, and none at n or above.
#[tactic(auto, using(marks::proofs::Ones::ones_marked), unfolding(run_spec::specs::RunFile::few_marks, marks::specs::Marks::marks_below))]
fn few_marks(n: u8, f: u8, marks: u32) -> bool
    ensures { result ≡ few_marks n f marks }
{
    if !marks::marks_below(marks, n as usize) {
        return false;
    }
    u32::count_ones(marks) <= f as u32
}

// How many rounds 65,535 phases have.
fn most_rounds(family: Family) -> u32
    ensures { result ≡ most_rounds family }
{
    match family {
        Family::TwoRounds => MOST_ROUNDS,
        Family::OneRound => MOST_PHASES,
    }
}

// A whole round record, after a number of rounds: 14, 26.
pub fn round_fault(family: Family, bytes: &[u8], n: u8, f: u8, rounds: u32) -> Result<(), Refusal>
    ensures { number_of result ≡ round_fault family n f rounds bytes.now }
{
    if !few_marks(n, f, fields::word_at(bytes, 4)) {
        return Err(Refusal::TooManyStruck);
    }
    if most_rounds(family) <= rounds {
        return Err(Refusal::RunHasEnded);
    }
    Ok(())
}

// A whole record with the number of listeners: 13.
pub fn listeners_fault(bytes: &[u8]) -> Result<(), Refusal>
    ensures { number_of result ≡ listeners_fault bytes.now }
{
    let number = fields::byte_at(bytes, 4);
    if number < 1 {
        return Err(Refusal::BadRunRecord);
    }
    if 16 < number {
        return Err(Refusal::BadRunRecord);
    }
    Ok(())
}

// A whole record with the struck ones of m listeners: 13.
pub fn strikes_fault(bytes: &[u8], m: u8) -> Result<(), Refusal>
    ensures { number_of result ≡ strikes_fault m bytes.now }
{
    if marks::marks_below(fields::half_at(bytes, 4) as u32, m as usize) {
        return Ok(());
    }
    Err(Refusal::BadRunRecord)
}

// Whether a pair comes after the last of its round: by sender, then by receiver.
fn comes_after(previous: Pair, from: u8, to: u8) -> bool
    ensures { result ≡ rises previous from to }
{
    if !previous.some {
        return true;
    }
    if previous.from == from {
        return previous.to < to;
    }
    previous.from < from
}

// Whether i is one of n heads or of m listeners.
pub fn is_receiver(n: u8, m: u8, i: usize) -> bool
    ensures { result ≡ is_receiver n m i }
{
    if i < n as usize {
        return true;
    }
    if i < terms::FIRST_LISTENER {
        return false;
    }
    i < terms::FIRST_LISTENER + (m as usize)
}

// Whether a pair may be planted: a sender among n heads that is struck, a receiver among them or m listeners that is not, after the last
// pair.
#[tactic(auto, unfolding(run_spec::specs::RunFile::pair_fits))]
fn pair_fits(n: u8, m: u8, struck: u64, previous: Pair, from: u8, to: u8) -> bool
    ensures { result ≡ pair_fits n m struck previous from to }
{
    if n <= from {
        return false;
    }
    if !is_receiver(n, m, to as usize) {
        return false;
    }
    if !marks::marked_wide(struck, from as usize) {
        return false;
    }
    if marks::marked_wide(struck, to as usize) {
        return false;
    }
    comes_after(previous, from, to)
}

// A whole planted record, after the last pair of its round: 13.
pub fn plant_fault(bytes: &[u8], n: u8, m: u8, struck: u64, previous: Pair) -> Result<(), Refusal>
    ensures { number_of result ≡ plant_fault n m struck previous bytes.now }
{
    let from = fields::byte_at(bytes, 4);
    let to = fields::byte_at(bytes, 5);
    if pair_fits(n, m, struck, previous, from, to) {
        return Ok(());
    }
    Err(Refusal::BadRunRecord)
}
