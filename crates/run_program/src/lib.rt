// The program `rigplay`, system call by system call: given what the last call did, it says what to do next. It reads and writes nothing
// itself.
#![tactic(auto)]

ghost use Rattle.std.specs.Prelude.{List, [], ◌≡◌, ℕ};
ghost use Rattle.run_state.specs.Memory.{Memory, memory_lent};
ghost use Rattle.run_program.specs.Calls.{part, after_read, after_write};
ghost use Rattle.run_program.specs.Running.{Running, failed, Steps};

use frame_slots::{PlantedBytes, PlantedLengths};
use run_state::{Carry, Player};
use run_stream::Page;
use terms::{Lists, Positions, Words};

mod calls;
mod pages;

// What the last system call did.
#[derive(Clone, Copy)]
pub enum Did {
    Nothing, // there was none yet
    Read(usize), // so many bytes are at the front of the piece; 0 is the end of the input
    Wrote(usize), // so many of the bytes asked for were written
    Failed,
}

// What to do next: read into the piece, write the bytes of the page from `from` up to `to`, or stop.
#[derive(Clone, Copy)]
pub enum Ask {
    Read,
    Write { from: usize, to: usize },
    Stop,
}

// Before the first step; while the input is read; after its end, while the last page is written; after a failure.
#[derive(Clone, Copy)]
pub enum Stage {
    Title,
    Going,
    Last,
    Failed,
}

// The state of the program. Of the piece, the bytes from `at` up to `end` were read and are not yet played; of the page, those from `from`
// up to `to` are not yet written.
#[derive(Clone, Copy)]
pub struct Program {
    pub player: Player,
    pub stage: Stage,
    pub at: usize,
    pub end: usize,
    pub from: usize,
    pub to: usize,
}

#[derive(Clone, Copy)]
pub struct Stepped {
    pub program: Program,
    pub ask: Ask,
}

// The bytes of a page that are asked to be written.
pub fn asked(page: &Page, from: usize, to: usize) -> &[u8]
    ensures { result.now ≡ part from to page.now }
{
    pages::part(page, from, to)
}

// What a call of C's read did, by its answer.
pub fn after_read(got: isize) -> Did
    ensures { result ≡ after_read got }
{
    if got < 0 {
        return Did::Failed;
    }
    Did::Read(got as usize)
}

// What a call of C's write did, by its answer.
pub fn after_write(got: isize) -> Did
    ensures { result ≡ after_write got }
{
    if got < 0 {
        return Did::Failed;
    }
    Did::Wrote(got as usize)
}

// Before the first step, with any memory.
pub fn begin() -> Program
    ensures { (piece page carry : List ℕ) (M : Memory) → Running [] [] result piece page carry M }
{
    pages::placed(run_stream::begin(), Stage::Title, 0, 0, 0)
}

// The program after a failure.
fn failed(program: Program) -> Program
    ensures { result ≡ failed program }
{
    Program {
        stage: Stage::Failed,
        ..program
    }
}

// A step: given what the last system call did, with what a read brought in the piece, the program says what to do next.
pub fn step(
    program: Program,
    did: Did,
    piece: &[u8],
    page: &mut Page,
    carry: &mut Carry,
    positions: &mut Positions,
    marks: &mut Words,
    lists: &mut Lists,
    planted: &mut PlantedBytes,
    lengths: &mut PlantedLengths,
) -> Stepped
    ensures { Steps program did
        piece.now page.old carry.old (memory_lent positions.old marks.old lists.old planted.old lengths.old)
        result page.new carry.new (memory_lent positions.new marks.new lists.new planted.new lengths.new) }
{
    if !calls::fits(program, did, piece.len()) {
        return Stepped {
            program: failed(program),
            ask: Ask::Stop,
        };
    }
    let next = pages::go_on(
        program, did, piece, page, carry, positions, marks, lists, planted, lengths,
    );
    Stepped {
        program: next,
        ask: calls::ask_of(next),
    }
}
