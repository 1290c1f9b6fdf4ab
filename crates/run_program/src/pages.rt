// What comes of it when the system did what it was asked for: the bytes that it read are played, page by page.
ghost use Rattle.std.specs.Prelude.{true, List, ◌++◌, ◌≡◌, ℕ, ◌+◌, ◌≤◌, length, take};
ghost use Rattle.run_state.specs.Memory.{memory_lent};
ghost use Rattle.run_program.specs.Calls.{part, unwritten, did_fits, stage_after, read_then, written_then};
ghost use Rattle.run_program.specs.Running.{Running};
ghost use Rattle.run_program.specs.Inner.{program_at, advanced, Turning};

use crate::{Did, Program, Stage, calls};
use frame_slots::{PlantedBytes, PlantedLengths};
use run_state::{Carry, Player};
use run_stream::{Page, last_page};
use terms::{Lists, Positions, Words};

// The bytes from `from` up to `to`, as far as they are there.
pub(crate) fn part(bytes: &[u8], from: usize, to: usize) -> &[u8]
    ensures { result.now ≡ part from to bytes.now }
{
    let rest = fields::bytes_from(bytes, from);
    let len = calls::gap(from, to);
    if rest.len() <= len {
        return rest;
    }
    &rest[..len]
}

// A program with nothing of its page written.
pub(crate) fn placed(player: Player, stage: Stage, at: usize, end: usize, to: usize) -> Program
    ensures { result ≡ program_at player stage at end to }
{
    Program {
        player,
        stage,
        at,
        end,
        from: 0,
        to,
    }
}

// The program with k bytes more written.
fn advanced(program: Program, k: usize) -> Program
    requires { program.from + k ≤ program.to }
    ensures { result ≡ advanced program k }
{
    let mut out = program;
    out.from += k;
    out
}

// When all of a page is written: the next page of the piece, if some of it is not yet played.
fn play_on(
    program: Program,
    piece: &[u8],
    page: &mut Page,
    carry: &mut Carry,
    positions: &mut Positions,
    marks: &mut Words,
    lists: &mut Lists,
    planted: &mut PlantedBytes,
    lengths: &mut PlantedLengths,
) -> Program
    ensures stage_value { result.stage ≡ program.stage }
    ensures by_index { (a out : List ℕ)
        → Turning a out program piece.now page.old carry.old (memory_lent positions.old marks.old lists.old planted.old lengths.old)
        → Running a out result piece.now page.new carry.new (memory_lent positions.new marks.new lists.new planted.new lengths.new) }
{
    let at = program.at;
    let end = program.end;
    if !calls::asks_read(program) {
        return program;
    }
    if end <= at {
        return program;
    }
    let player = program.player;
    let rest = part(piece, at, end);
    let filled = run_stream::fill(
        player, rest, page, carry, positions, marks, lists, planted, lengths,
    );
    let player = filled.player;
    placed(player, Stage::Going, at + filled.used, end, filled.len)
}

// After a read: the bytes that came are played, or the last page is filled. (A function of its own, so that the compiler leaves `play_on`
// one: a file with liars is played in 2 percent less time.)
fn go_on_read(
    program: Program,
    k: usize,
    piece: &[u8],
    page: &mut Page,
    carry: &mut Carry,
    positions: &mut Positions,
    marks: &mut Words,
    lists: &mut Lists,
    planted: &mut PlantedBytes,
    lengths: &mut PlantedLengths,
) -> Program
    requires { did_fits (Did.Read k) program (length piece.now) ≡ true }
    ensures stage_value { result.stage ≡ stage_after (Did.Read k) program.stage }
    ensures by_index { (a out : List ℕ)
        → Running a out program piece.now page.old carry.old (memory_lent positions.old marks.old lists.old planted.old lengths.old)
        → Running (a ++ take k piece.now) out result piece.now page.new carry.new (memory_lent positions.new marks.new lists.new planted.new lengths.new) }
{
    let player = program.player;
    if k == 0 {
        let len = last_page(player, page, positions, marks, lists, planted, lengths);
        return placed(player, Stage::Last, 0, 0, len);
    }
    play_on(
        placed(player, Stage::Going, 0, k, 0),
        piece,
        page,
        carry,
        positions,
        marks,
        lists,
        planted,
        lengths,
    )
}

// The system did what it was asked for. First comes the title, and after the end of the input the last page.
pub(crate) fn go_on(
    program: Program,
    did: Did,
    piece: &[u8],
    page: &mut Page,
    carry: &mut Carry,
    positions: &mut Positions,
    marks: &mut Words,
    lists: &mut Lists,
    planted: &mut PlantedBytes,
    lengths: &mut PlantedLengths,
) -> Program
    requires { did_fits did program (length piece.now) ≡ true }
    ensures stage_value { result.stage ≡ stage_after did program.stage }
    ensures by_index { (a out : List ℕ)
        → Running a out program piece.now page.old carry.old (memory_lent positions.old marks.old lists.old planted.old lengths.old)
        → Running (read_then did a piece.now) (written_then did out (unwritten program page.old)) result
        piece.now page.new carry.new (memory_lent positions.new marks.new lists.new planted.new lengths.new) }
{
    match did {
        Did::Nothing => {
            let len = run_stream::first_page(page);
            placed(program.player, Stage::Going, 0, 0, len)
        }
        Did::Read(k) => go_on_read(
            program, k, piece, page, carry, positions, marks, lists, planted, lengths,
        ),
        Did::Wrote(k) => play_on(
            advanced(program, k),
            piece,
            page,
            carry,
            positions,
            marks,
            lists,
            planted,
            lengths,
        ),
        Did::Failed => program,
    }
}
