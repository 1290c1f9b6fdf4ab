// A whole run file in memory, played: its listing, and for each phase end the positions of the sound heads and listeners and the mark word
// of those struck. What a caller sees of the file is one promise, about what these buffers hold.
#![tactic(auto)]

ghost use Rattle.std.specs.Prelude.{true, List, ◌≡◌, ℕ, ◌+◌, ◌≤◌, ◌<◌, length};
ghost use Rattle.std.proofs.Math.Seq.{paste};
ghost use Rattle.run_state.specs.Memory.{memory_lent};
ghost use Rattle.run_whole.specs.Buffers.{Buffers, lent, left, ends_by_bytes, most_ends, has_room};
ghost use Rattle.run_whole.specs.Whole.{Whole, Plays, PlaysInto};
ghost use Rattle.run_whole.specs.Inner.{Put, sound_number, sound_row, word_at, EndKept, Going};

use frame_slots::{PlantedBytes, PlantedLengths};
use run_judge::{HEAD_MARKS, Kind};
use run_state::{Carry, Counts, Player};
use terms::{HEADS, Lists, Positions, RECEIVERS, Refusal, Words};
use texts::Text;

// How the file ends, or 24 if a buffer is too short; how many bytes the listing has; how many phase ends were played, the start among them;
// and of each head and listener the phases since its last strike.
#[derive(Clone, Copy)]
pub struct PlayResult {
    pub number: u8,
    pub len: usize,
    pub ends: usize,
    pub since: Counts,
}

// A place in the file: the player there, the bytes taken, the bytes of the listing, and the phase ends.
#[derive(Clone, Copy)]
struct Place {
    player: Player,
    used: usize,
    len: usize,
    count: usize,
}

// How many phase ends a file of its length can have at most: by the kind of its first record a phase takes 8 bytes at least, or 16.
fn ends_by_bytes(file: &[u8]) -> usize
    ensures { result ≡ ends_by_bytes file.now }
{
    if fields::half_at(file, 2) == Kind::StartOne as u16 {
        return file.len() / 8 + 1;
    }
    file.len() / 16 + 1
}

// How many there are at most in any file: the start, and those of phases 1 to 65,535.
const ALL_ENDS: usize = 65536;

// How many phase ends a file can have at most: by its bytes, and by the phases that there are.
fn most_ends(file: &[u8]) -> usize
    ensures { result ≡ most_ends file.now }
{
    ends_by_bytes(file).min(ALL_ENDS)
}

// Whether buffers of these lengths have room for a file.
#[tactic(auto, unfolding(crate::specs::Buffers::has_room))]
fn has_room(file: &[u8], out: usize, rows: usize, words: usize) -> bool
    ensures { result ≡ has_room file.now out rows words }
{
    let most = most_ends(file);
    if out / 64 < most + 2 {
        return false;
    }
    if rows / 48 < most {
        return false;
    }
    most <= words
}

// Puts a text after the first bytes, if there is room.
fn put(out: &mut [u8], len: usize, t: Text) -> usize
    ensures { Put t len result out.old out.new }
{
    let count = t.len;
    if 64 < count {
        return len;
    }
    if out.len() < count {
        return len;
    }
    if out.len() - count < len {
        return len;
    }
    let bytes = t.bytes;
    fields::put_bytes(out, len, &bytes[..count]);
    len + count
}

// The number that a row has for receiver i: the position of a sound head or listener, else 0.
fn number_at(positions: &Positions, n: u8, m: u8, word: u64, i: usize) -> i32
    ensures { result ≡ sound_number n m word positions.now i }
{
    if !run_judge::is_receiver(n, m, i) {
        return 0;
    }
    if marks::marked_wide(word, i) {
        return 0;
    }
    run_listing::position_at(positions, i)
}

// Writes a row.
fn fill_row(rows: &mut [i32], base: usize, positions: &Positions, n: u8, m: u8, word: u64)
    requires { base + 48 ≤ length rows.old }
    ensures { rows.new ≡ paste rows.old base (sound_row n m word positions.now 48) 48 }
{
    for (i, v) in rows[base..base + RECEIVERS].iter_mut().enumerate() {
        *v = number_at(positions, n, m, word, i);
    }
}

// The marks of all listeners: `all_listeners`, in crates/ring_spec/specs/Rounds.antt.
const ALL_LISTENERS: u64 = 65535 * HEAD_MARKS;

// The mark word of the phase end with this number: at the start, which is the first, every listener counts as struck.
fn word_at(count: usize, struck: u64) -> u64
    ensures { result ≡ word_at count struck }
{
    if count == 0 {
        return ALL_LISTENERS;
    }
    struck
}

// Keeps a phase end, if there is one and room for it, and answers how many there are then.
fn keep(
    some: bool,
    rows: &mut [i32],
    words: &mut [u64],
    count: usize,
    positions: &Positions,
    n: u8,
    m: u8,
    struck: u64,
) -> usize
    ensures { EndKept some n m struck positions.now count result rows.old words.old rows.new words.new }
{
    if !some {
        return count;
    }
    if words.len() <= count {
        return count;
    }
    if rows.len() / 48 <= count {
        return count;
    }
    let word = word_at(count, struck);
    fill_row(rows, 48 * count, positions, n, m, word);
    words[count] = word;
    count + 1
}

// Takes bytes up to the first that show a line, and keeps the line and the phase end that it is of.
fn step(
    at: Place,
    file: &[u8],
    out: &mut [u8],
    rows: &mut [i32],
    words: &mut [u64],
    carry: &mut Carry,
    positions: &mut Positions,
    marks: &mut Words,
    lists: &mut Lists,
    planted: &mut PlantedBytes,
    lengths: &mut PlantedLengths,
) -> Place
    requires { at.used < length file.now }
    ensures used_lt_used { (at.used < result.used) × (result.used ≤ length file.now) }
    ensures going { (B : Buffers)
        → Going file.now at carry.old (memory_lent positions.old marks.old lists.old planted.old lengths.old) B (lent out rows words)
        → Going file.now result carry.new (memory_lent positions.new marks.new lists.new planted.new lengths.new) B (left out rows words) }
{
    let used = at.used;
    let fed = run_stream::feed(
        at.player,
        &file[used..],
        carry,
        positions,
        marks,
        lists,
        planted,
        lengths,
    );
    let text = fed.text;
    let player = fed.player;
    let len = put(out, at.len, text);
    let count = keep(
        text.len != 0,
        rows,
        words,
        at.count,
        positions,
        player.n,
        player.listeners,
        player.before,
    );
    Place {
        player,
        used: used + fed.used,
        len,
        count,
    }
}

// The end of the file: the last phase end, if one is played there, and the last line.
fn close(
    at: Place,
    out: &mut [u8],
    rows: &mut [i32],
    words: &mut [u64],
    positions: &mut Positions,
    marks: &mut Words,
    lists: &mut Lists,
    planted: &PlantedBytes,
    lengths: &PlantedLengths,
) -> PlayResult
    ensures { (file carry : List ℕ) (B : Buffers) → at.used ≡ length file
        → Going file at carry (memory_lent positions.old marks.old lists.old planted.now lengths.now) B (lent out rows words) → Whole file result B (left out rows words) }
{
    let player = at.player;
    let finished = run_stream::finish(player, positions, marks, lists, planted, lengths);
    let line = finished.line;
    let verdict = finished.verdict;
    let since = finished.since;
    let len = put(out, at.len, line);
    let count = keep(
        line.len != 0,
        rows,
        words,
        at.count,
        positions,
        player.n,
        player.listeners,
        player.struck,
    );
    PlayResult {
        number: finished.number,
        len: put(out, len, verdict),
        ends: count,
        since,
    }
}

// Plays the file with the player's memory lent too.
fn run(
    file: &[u8],
    out: &mut [u8],
    rows: &mut [i32],
    words: &mut [u64],
    carry: &mut Carry,
    positions: &mut Positions,
    marks: &mut Words,
    lists: &mut Lists,
    planted: &mut PlantedBytes,
    lengths: &mut PlantedLengths,
) -> PlayResult
    requires { has_room file.now (length out.old) (length rows.old) (length words.old) ≡ true }
    ensures { Whole file.now result (lent out rows words) (left out rows words) }
{
    let title = run_listing::title_line();
    let mut at = Place {
        player: run_stream::begin(),
        used: 0,
        len: put(out, 0, title),
        count: 0,
    };
    // A `while`: a step takes as many bytes of the file as show a line, so that no iterator form is plainer.
    while at.used < file.len() {
        at = step(
            at, file, out, rows, words, carry, positions, marks, lists, planted, lengths,
        );
    }
    close(
        at, out, rows, words, positions, marks, lists, planted, lengths,
    )
}

// Plays a whole file: its listing at the front of out, and for each phase end a row of rows and a word of words. Refused 24 if one of the
// three is too short for the most phase ends that a file of this length and kind can have.
pub fn play(file: &[u8], out: &mut [u8], rows: &mut [i32], words: &mut [u64]) -> PlayResult
    ensures { Plays (has_room file.now (length out.old) (length rows.old) (length words.old))
        file.now result (lent out rows words) (left out rows words) }
{
    if !has_room(file, out.len(), rows.len(), words.len()) {
        let since = [0u8; RECEIVERS];
        return PlayResult {
            number: Refusal::BufferTooShort.number(),
            len: 0,
            ends: 0,
            since,
        };
    }
    let mut carry = [0u8; run_state::CARRY];
    let mut positions = [0i32; RECEIVERS];
    let mut marks = [0u32; HEADS];
    let none = [0i32; HEADS];
    let mut lists = [none; HEADS];
    let mut planted = [0u8; frame_slots::BYTES];
    let mut lengths = [0u8; frame_slots::LINKS];
    run(
        file,
        out,
        rows,
        words,
        &mut carry,
        &mut positions,
        &mut marks,
        &mut lists,
        &mut planted,
        &mut lengths,
    )
}

// The same from C: the number of the file's first fault, 0 if it is played to its end, or 24; the counts, the length of the listing and the
// number of phase ends are put where the caller lends room.
#[unsafe(no_mangle)]
pub extern "C" fn focus_play(
    file: &[u8],
    out: &mut [u8],
    rows: &mut [i32],
    words: &mut [u64],
    since: &mut Counts,
    size: &mut usize,
    count: &mut usize,
) -> u8
    ensures { PlaysInto (has_room file.now (length out.old) (length rows.old) (length words.old))
        file.now result size.old size.new count.old count.new
        since.old since.new (lent out rows words) (left out rows words) }
{
    if !has_room(file, out.len(), rows.len(), words.len()) {
        return Refusal::BufferTooShort.number();
    }
    let played = play(file, out, rows, words);
    let counts = played.since;
    *since = counts;
    *size = played.len;
    *count = played.ends;
    played.number
}
