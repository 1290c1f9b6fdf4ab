// Frames, read and written: what a frame says to a head, and the frame that says it, put into a lent buffer.
#![tactic(auto)]

ghost use Rattle.std.specs.Prelude.{true, ◌≡◌, [], ◌≤◌, length, get_or, drop, pos};
ghost use Rattle.frame_check.specs.Check.{position, list};
ghost use Rattle.frame_check.specs.Kinds.{kind_number, kind_named};
ghost use Rattle.frame_spec.specs.Said.{round_of, rest_field, entries_in, said, said_of, table_in, meant};
ghost use Rattle.frame_codec.specs.Parts.{parts_of};
ghost use Rattle.frame_codec.specs.Steps.{from_marks, common_refusal, said_unless, told};
ghost use Rattle.fields.specs.Bytes.{word_of, over};
ghost use Rattle.terms.specs.Refused.{number_of, numbered};
ghost use Rattle.frame_spec.specs.Written.{header, entry_bytes, position_frame, list_frame, frame_of, written, buffered};

use frame_check::Kind;
use frame_spec::Said;
use terms::{Entry, Refusal, Table};

// The round that a kind belongs to.
fn round_of(kind: Kind) -> u8
    ensures { result ≡ round_of (kind_named kind) }
{
    match kind {
        Kind::Position | Kind::Silence => 0,
        Kind::List | Kind::Confession => 1,
    }
}

// The bytes of a list's entries, of the rest of a list frame; none if it is shorter.
fn entries_of(rest: &[u8]) -> &[u8]
    ensures { result.now ≡ entries_in rest.now }
{
    fields::bytes_from(rest, 5)
}

// The rest of a position frame: 11, and what it says, the same for every count of heads.
fn read_position(rest: &[u8]) -> Result<Said, Refusal>
    ensures { told result ≡ said_unless (from_marks position 0 rest.now) position 0 rest.now }
{
    let word = fields::word_at(rest, 0);
    if entries::is_position_word(word) {
        return Ok(Said::Collection(Some(fields::signed(word))));
    }
    Err(Refusal::EntryOutOfRange)
}

// The rest of a list frame: 10, 11.
fn read_list(rest: &[u8], n: u8) -> Result<Said, Refusal>
    ensures { told result ≡ said_unless (from_marks list n rest.now) list n rest.now }
{
    if fields::byte_at(rest, 0) != n {
        return Err(Refusal::BadCountOrMarks);
    }
    let marks = fields::word_at(rest, 1);
    if !marks::marks_below(marks, n as usize) {
        return Err(Refusal::BadCountOrMarks);
    }
    if entries::entries_fit(marks, entries_of(rest), n) {
        return Ok(Said::List);
    }
    Err(Refusal::EntryOutOfRange)
}

// 10 and 11, by the kind, and what the frame says.
fn read_rest(rest: &[u8], kind: Kind, n: u8) -> Result<Said, Refusal>
    ensures { told result ≡ said_unless (from_marks (kind_named kind) n rest.now) (kind_named kind) n rest.now }
{
    match kind {
        Kind::Position => read_position(rest),
        Kind::Silence => Ok(Said::Collection(None)),
        Kind::List => read_list(rest, n),
        Kind::Confession => Ok(Said::Confession),
    }
}

// 22, 9, 23, before the checks of the rest: the round of the kind, the sender and the phase.
fn common_refusal(frame: &[u8], kind: Kind, phase: u16, round: u8, link: u8) -> Result<(), Refusal>
    ensures { number_of result ≡ common_refusal (kind_named kind) phase round link frame.now }
{
    if round_of(kind) != round {
        return Err(Refusal::OtherRound);
    }
    if fields::byte_at(frame, 4) != link {
        return Err(Refusal::SenderIsNotLink);
    }
    if fields::half_at(frame, 5) != phase {
        return Err(Refusal::OtherPhase);
    }
    Ok(())
}

// What an accepted frame says, or the first check that refuses it: 6, 7, 8, 22, 9, 23, 10, 11.
fn accepted(frame: &[u8], n: u8, phase: u16, round: u8, link: u8) -> Result<Said, Refusal>
    ensures { told result ≡ said_of (said n phase round link frame.now) }
{
    let rest = frame_check::check(frame)?;
    let kind = Kind::try_from(fields::half_at(frame, 2)).unwrap();
    common_refusal(frame, kind, phase, round, link)?;
    read_rest(rest, kind, n)
}

// What a frame says on a link, to a head of a ring of n heads in this phase and round. Refusals 6, 7, 8, 22, 9, 23, 10, 11.
pub fn read(frame: &[u8], n: u8, phase: u16, round: u8, link: u8) -> Said
    ensures { result ≡ said_of (said n phase round link frame.now) }
{
    match accepted(frame, n, phase, round, link) {
        Ok(said) => said,
        Err(refusal) => Said::Refused(refusal.number()),
    }
}

// What hearing takes of a frame, but for the table of a list: whether it is accepted, else the number of the check that refuses it; the
// entry that it says, null if it says none; whether it gives a list, and whether it is a confession.
#[derive(Clone, Copy)]
pub struct Parts {
    pub accepted: bool,
    pub refusal: u8,
    pub entry: Entry,
    pub list: bool,
    pub confession: bool,
}

// The parts of what an accepted frame said.
fn parts_with(entry: Entry, list: bool, confession: bool) -> Parts
    ensures { result ≡ record { accepted = true; refusal = 0; entry = entry; list = list; confession = confession } }
{
    Parts {
        accepted: true,
        refusal: 0,
        entry,
        list,
        confession,
    }
}

// Takes apart what a frame said, for all that hear. The table of a list stays in the frame (D16d).
pub fn parts_of(said: Said) -> Parts
    ensures { result ≡ parts_of said }
{
    match said {
        Said::Refused(refusal) => Parts {
            accepted: false,
            refusal,
            entry: None,
            list: false,
            confession: false,
        },
        Said::Collection(entry) => parts_with(entry, false, false),
        Said::List => parts_with(None, true, false),
        Said::Confession => parts_with(None, false, true),
    }
}

// The table of a list frame.
pub fn table_in(frame: &[u8], n: u8) -> Table
    ensures { result ≡ table_in n (rest_field frame.now) }
{
    let rest = fields::bytes_from(frame, 7);
    let marks = fields::word_at(rest, 1);
    let entries = entries::numbers_at(entries_of(rest), n);
    Table { marks, entries }
}

// ---- Frames written: the frame that says something, at the front of a buffer.

// The common fields, seven bytes.
fn put_header(size: u16, kind: Kind, sender: u8, phase: u16, buffer: &mut [u8])
    requires { 7 ≤ length buffer.old }
    ensures { buffer.new ≡ header size (kind_number kind) sender phase (drop 7 buffer.old) }
{
    fields::put_half(buffer, 0, size);
    fields::put_half(buffer, 2, kind.number());
    buffer[4] = sender;
    fields::put_half(buffer, 5, phase);
}

// A frame of the common fields alone.
fn write_bare(kind: Kind, sender: u8, phase: u16, buffer: &mut [u8]) -> Result<usize, Refusal>
    ensures answer { numbered result ≡ written (header 7 (kind_number kind) sender phase []) buffer.old }
    ensures bytes { buffer.new ≡ buffered (header 7 (kind_number kind) sender phase []) buffer.old }
{
    if buffer.len() < 7 {
        return Err(Refusal::BufferTooShort);
    }
    put_header(7, kind, sender, phase, buffer);
    Ok(7)
}

// A frame with a position.
fn write_position(v: i32, sender: u8, phase: u16, buffer: &mut [u8]) -> Result<usize, Refusal>
    ensures answer { numbered result ≡ written (position_frame sender phase v) buffer.old }
    ensures bytes { buffer.new ≡ buffered (position_frame sender phase v) buffer.old }
{
    if buffer.len() < 11 {
        return Err(Refusal::BufferTooShort);
    }
    put_header(11, Kind::Position, sender, phase, buffer);
    fields::put_word(buffer, 7, fields::unsigned(v));
    Ok(11)
}

// The word of entry j; past the entries it is 0.
fn entry_word(entries: &[i32], j: usize) -> u32
    ensures { result ≡ word_of (get_or entries.now j (pos 0)) }
{
    if j < entries.len() {
        fields::unsigned(entries[j])
    } else {
        0
    }
}

// The first n entries of a list frame.
fn put_entries(entries: &[i32], n: u8, buffer: &mut [u8])
    ensures { buffer.new ≡ over (entry_bytes entries.now n) 12 buffer.old }
{
    for j in 0..n as usize {
        fields::put_word(buffer, 12 + 4 * j, entry_word(entries, j));
    }
}

// A frame with a list.
fn write_list(
    marks: u32,
    entries: &[i32],
    n: u8,
    sender: u8,
    phase: u16,
    buffer: &mut [u8],
) -> Result<usize, Refusal>
    ensures answer { numbered result ≡ written (list_frame n sender phase (record { marks = marks; entries = entries.now })) buffer.old }
    ensures bytes { buffer.new ≡ buffered (list_frame n sender phase (record { marks = marks; entries = entries.now })) buffer.old }
{
    let size = 12 + 4 * (n as u16);
    if buffer.len() < size as usize {
        return Err(Refusal::BufferTooShort);
    }
    put_header(size, Kind::List, sender, phase, buffer);
    buffer[7] = n;
    fields::put_word(buffer, 8, marks);
    put_entries(entries, n, buffer);
    Ok(size as usize)
}

// Writes the frame that says `what` (a list with `table`) at the front of the buffer. Refusal 24 leaves the buffer as it was.
pub fn write(
    what: Said,
    table: Table,
    n: u8,
    sender: u8,
    phase: u16,
    buffer: &mut [u8],
) -> Result<usize, Refusal>
    ensures answer { numbered result ≡ written (frame_of n sender phase (meant what table)) buffer.old }
    ensures bytes { buffer.new ≡ buffered (frame_of n sender phase (meant what table)) buffer.old }
{
    match what {
        Said::Refused(_) => Ok(0),
        Said::Collection(entry) => match entry {
            None => write_bare(Kind::Silence, sender, phase, buffer),
            Some(v) => write_position(v, sender, phase, buffer),
        },
        Said::List => write_list(table.marks, &table.entries, n, sender, phase, buffer),
        Said::Confession => write_bare(Kind::Confession, sender, phase, buffer),
    }
}
