// The records of a run file, taken one by one.
#![tactic(auto)]

ghost use Rattle.std.specs.Prelude.{true, false, List, ◌≡◌, ℕ, ◌≤◌, ◌<◌, length, get_or, drop, pos};
ghost use Rattle.terms.specs.Refused.{number};
ghost use Rattle.run_spec.specs.RunFile.{File, read_file, start, round, plant, listeners, strikes, is_first, is_bare, kind_in, length_in, is_allowed, judged, stopped, sender_in, receiver_in};
ghost use Rattle.frame_slots.specs.Slots.{with_planted, with_length, PlantedThen, slot_size};
ghost use Rattle.run_state.specs.Memory.{Memory, memory_lent, with_positions, with_slots};
ghost use Rattle.run_state.specs.Changes.{pair_in};
ghost use Rattle.run_state.specs.State.{PlayerOf, MemoryOf};
ghost use Rattle.run_record.specs.Next.{allowed_to, record_taken, Next};
ghost use Rattle.run_record.specs.Inner.{due_to, PendingPlayed};

use frame_slots::{PlantedBytes, PlantedLengths};
use run_judge::Kind;
use run_spec::Pair;
use run_state::Player;
use terms::{Family, HEADS, Lists, Numbers, Positions, Refusal, Words};
use texts::Text;

// What comes of a record: the player after it, and the line that it shows, if any.
#[derive(Clone, Copy)]
pub struct RecordResult {
    pub player: Player,
    pub text: Text,
}

// A record with a fault: the file stops, and nothing is shown.
fn refuse(p: Player, refusal: Refusal) -> RecordResult
    ensures next { (F : File) (M : Memory) → PlayerOf p F → MemoryOf F M → Next F (stopped F (number refusal)) p M result M }
    ensures len_bound { result.text.len ≤ 64 }
{
    RecordResult {
        player: run_state::stop(p, refusal.number()),
        text: texts::empty(),
    }
}

// Stores the positions of the heads. Those of listeners are free before their first phase end.
fn store_heads(first: &Numbers, positions: &mut [i32])
    requires { 32 ≤ length positions.old }
    ensures { (j : ℕ) → j < 32 → get_or positions.new j (pos 0) ≡ get_or first.now j (pos 0) }
{
    positions[..HEADS].copy_from_slice(first);
}

// A start record of a ring of either family.
fn take_start(family: Family, p: Player, bytes: &[u8], positions: &mut Positions) -> RecordResult
    ensures next { (F : File) (M : Memory) → F.setup.begun ≡ false → PlayerOf p F → MemoryOf F (with_positions M positions.old)
        → Next F (judged (start family) F bytes.now) p (with_positions M positions.old) result (with_positions M positions.new) }
    ensures len_bound { result.text.len ≤ 64 }
{
    match run_judge::start_fault(family, bytes) {
        Err(refusal) => refuse(p, refusal),
        Ok(()) => {
            let n = fields::byte_at(bytes, 4);
            let first = run_judge::first_positions(bytes);
            store_heads(&first, positions);
            RecordResult {
                player: run_state::fresh(true, family, n, fields::byte_at(bytes, 5)),
                text: run_listing::end_line(0, run_listing::extremes_of(n, 0, 0, positions), 0, 0),
            }
        }
    }
}

// A record with the number of listeners. The line of the start is the same however many there are, so nothing is shown.
fn take_listeners(p: Player, bytes: &[u8]) -> RecordResult
    ensures next { (F : File) (M : Memory) → is_first F ≡ true → PlayerOf p F → MemoryOf F M → Next F (judged listeners F bytes.now) p M result M }
    ensures len_bound { result.text.len ≤ 64 }
{
    match run_judge::listeners_fault(bytes) {
        Err(refusal) => refuse(p, refusal),
        Ok(()) => {
            RecordResult {
                player: run_state::given_listeners(p, fields::byte_at(bytes, 4)),
                text: texts::empty(),
            }
        }
    }
}

// A record with the struck listeners of the pending round.
fn take_strikes(p: Player, bytes: &[u8]) -> RecordResult
    ensures by_index { (a : List ℕ) (M : Memory) → is_bare (read_file a).rounds ≡ true → PlayerOf p (read_file a) → MemoryOf (read_file a) M
        → Next (read_file a) (judged strikes (read_file a) bytes.now) p M result M }
    ensures len_bound { result.text.len ≤ 64 }
{
    match run_judge::strikes_fault(bytes, p.listeners) {
        Err(refusal) => refuse(p, refusal),
        Ok(()) => {
            RecordResult {
                player: run_state::given_strikes(p, fields::half_at(bytes, 4)),
                text: texts::empty(),
            }
        }
    }
}

// Plays the pending round, if there is one, and answers the line of the phase that it ends, if it ends one.
fn play_waiting(
    p: Player,
    positions: &mut Positions,
    marks: &mut Words,
    lists: &mut Lists,
    planted: &PlantedBytes,
    lengths: &PlantedLengths,
) -> Text
    ensures by_index { (a s : List ℕ) → (read_file a).setup.begun ≡ true → PlayerOf p (read_file a)
        → MemoryOf (read_file a) (memory_lent positions.old marks.old lists.old planted.now lengths.now)
        → PendingPlayed (read_file a) s result (memory_lent positions.new marks.new lists.new planted.now lengths.now) }
    ensures len_bound { result.len ≤ 64 }
{
    if !p.pending {
        return texts::empty();
    }
    run_round::play_round(p, positions, marks, lists, planted, lengths)
}

// A round record: the pending round is played.
fn take_round(
    p: Player,
    bytes: &[u8],
    positions: &mut Positions,
    marks: &mut Words,
    lists: &mut Lists,
    planted: &PlantedBytes,
    lengths: &mut PlantedLengths,
) -> RecordResult
    ensures by_index { (a : List ℕ) → (read_file a).setup.begun ≡ true → PlayerOf p (read_file a)
        → MemoryOf (read_file a) (memory_lent positions.old marks.old lists.old planted.now lengths.old)
        → Next (read_file a) (judged round (read_file a) bytes.now) p (memory_lent positions.old marks.old lists.old planted.now lengths.old) result (memory_lent positions.new marks.new lists.new planted.now lengths.new) }
    ensures len_bound { result.text.len ≤ 64 }
{
    let family = p.family;
    match run_judge::round_fault(family, bytes, p.n, p.f, p.given) {
        Err(refusal) => refuse(p, refusal),
        Ok(()) => {
            let text = play_waiting(p, positions, marks, lists, planted, lengths);
            let agreed = run_round::agree(p, positions);
            frame_slots::clear(lengths, p.n);
            RecordResult {
                player: run_state::given_round(p, fields::word_at(bytes, 4), agreed),
                text,
            }
        }
    }
}

// Plants the bytes of a planted record on the link that it names, and answers its sender and receiver.
pub fn plant_in(bytes: &[u8], planted: &mut PlantedBytes, lengths: &mut PlantedLengths) -> Pair
    ensures pair { result ≡ pair_in bytes.now }
    ensures bytes { planted.new ≡ with_planted planted.old (sender_in bytes.now) (receiver_in bytes.now) (drop 6 bytes.now) }
    ensures lengths { lengths.new ≡ with_length lengths.old (sender_in bytes.now) (receiver_in bytes.now) (drop 6 bytes.now) }
    ensures reads { PlantedThen (sender_in bytes.now) (receiver_in bytes.now) (drop 6 bytes.now)
        planted.old lengths.old planted.new lengths.new }
{
    let from = fields::byte_at(bytes, 4);
    let to = fields::byte_at(bytes, 5);
    let frame = fields::bytes_from(bytes, 6);
    frame_slots::plant(planted, lengths, from, to, frame);
    Pair {
        some: true,
        from,
        to,
    }
}

// A planted record, of at most 140 planted bytes.
fn take_plant(
    p: Player,
    bytes: &[u8],
    planted: &mut PlantedBytes,
    lengths: &mut PlantedLengths,
) -> RecordResult
    ensures next { (F : File) (M : Memory) → length (drop 6 bytes.now) ≤ slot_size → PlayerOf p F
        → MemoryOf F (with_slots M planted.old lengths.old)
        → Next F (judged plant F bytes.now) p (with_slots M planted.old lengths.old) result (with_slots M planted.new lengths.new) }
    ensures len_bound { result.text.len ≤ 64 }
{
    match run_judge::plant_fault(bytes, p.n, p.listeners, p.struck, p.pair) {
        Err(refusal) => refuse(p, refusal),
        Ok(()) => {
            let pair = plant_in(bytes, planted, lengths);
            RecordResult {
                player: run_state::planted_pair(p, pair),
                text: texts::empty(),
            }
        }
    }
}

// A whole record that is allowed, by its kind.
fn take_allowed(
    p: Player,
    bytes: &[u8],
    positions: &mut Positions,
    marks: &mut Words,
    lists: &mut Lists,
    planted: &mut PlantedBytes,
    lengths: &mut PlantedLengths,
) -> RecordResult
    ensures by_index { (a : List ℕ) → PlayerOf p (read_file a)
        → MemoryOf (read_file a) (memory_lent positions.old marks.old lists.old planted.old lengths.old)
        → is_allowed (kind_in bytes.now) (read_file a) (length_in bytes.now) ≡ true
        → length bytes.now ≡ length_in bytes.now
        → Next (read_file a) (judged (kind_in bytes.now) (read_file a) bytes.now)
        p (memory_lent positions.old marks.old lists.old planted.old lengths.old) result (memory_lent positions.new marks.new lists.new planted.new lengths.new) }
    ensures len_bound { result.text.len ≤ 64 }
{
    match Kind::try_from(fields::half_at(bytes, 2)) {
        Ok(Kind::Start) => take_start(Family::TwoRounds, p, bytes, positions),
        Ok(Kind::StartOne) => take_start(Family::OneRound, p, bytes, positions),
        Ok(Kind::Round) => take_round(p, bytes, positions, marks, lists, planted, lengths),
        Ok(Kind::Plant) => take_plant(p, bytes, planted, lengths),
        Ok(Kind::Strikes) => take_strikes(p, bytes),
        Ok(Kind::Listeners) => take_listeners(p, bytes),
        Err(refusal) => refuse(p, refusal),
    }
}

// Whether the record whose header these bytes begin with is allowed.
pub fn stands(p: Player, bytes: &[u8]) -> bool
    ensures { result ≡ allowed_to p bytes.now }
{
    run_judge::is_allowed(
        fields::half_at(bytes, 2),
        fields::half_at(bytes, 0),
        p.begun,
        run_state::is_first(p),
        p.pending,
        run_state::is_bare(p),
    )
}

// Whether these bytes are a whole record that is allowed.
fn is_due(p: Player, bytes: &[u8]) -> bool
    ensures { result ≡ due_to p bytes.now }
{
    if bytes.len() != fields::half_at(bytes, 0) as usize {
        return false;
    }
    stands(p, bytes)
}

// A record. Bytes that are not a whole record, or one that is not allowed, stop the file with 13.
pub fn take_record(
    p: Player,
    bytes: &[u8],
    positions: &mut Positions,
    marks: &mut Words,
    lists: &mut Lists,
    planted: &mut PlantedBytes,
    lengths: &mut PlantedLengths,
) -> RecordResult
    ensures by_index { (a : List ℕ) → PlayerOf p (read_file a)
        → MemoryOf (read_file a) (memory_lent positions.old marks.old lists.old planted.old lengths.old)
        → Next (read_file a) (record_taken (read_file a) bytes.now)
        p (memory_lent positions.old marks.old lists.old planted.old lengths.old) result (memory_lent positions.new marks.new lists.new planted.new lengths.new) }
    ensures len_bound { result.text.len ≤ 64 }
{
    if !is_due(p, bytes) {
        return refuse(p, Refusal::BadRunRecord);
    }
    take_allowed(p, bytes, positions, marks, lists, planted, lengths)
}
