// What the program asks of the system, and whether the system did what it was asked for.
ghost use Rattle.std.specs.Prelude.{◌≡◌, ◌-◌};
ghost use Rattle.run_program.specs.Calls.{ask_of, is_title, asks_read, left_of, did_fits};

use crate::{Ask, Did, Program, Stage};

// What to do next.
pub(crate) fn ask_of(program: Program) -> Ask
    ensures { result ≡ ask_of program }
{
    let from = program.from;
    let to = program.to;
    let stage = program.stage;
    match stage {
        Stage::Title => Ask::Stop,
        Stage::Going => {
            if from < to {
                return Ask::Write { from, to };
            }
            Ask::Read
        }
        Stage::Last => {
            if from < to {
                return Ask::Write { from, to };
            }
            Ask::Stop
        }
        Stage::Failed => Ask::Stop,
    }
}

fn is_title(program: Program) -> bool
    ensures { result ≡ is_title program.stage }
{
    let stage = program.stage;
    match stage {
        Stage::Title => true,
        Stage::Going => false,
        Stage::Last => false,
        Stage::Failed => false,
    }
}

pub(crate) fn asks_read(program: Program) -> bool
    ensures { result ≡ asks_read (ask_of program) }
{
    match ask_of(program) {
        Ask::Read => true,
        Ask::Write { from: _, to: _ } => false,
        Ask::Stop => false,
    }
}

// How many bytes are between two places.
pub(crate) fn gap(from: usize, to: usize) -> usize
    ensures { result ≡ to - from }
{
    to.saturating_sub(from)
}

// How many bytes are to be written.
fn left_of(program: Program) -> usize
    ensures { result ≡ left_of (ask_of program) }
{
    match ask_of(program) {
        Ask::Read => 0,
        Ask::Write { from, to } => gap(from, to),
        Ask::Stop => 0,
    }
}

pub(crate) fn fits(program: Program, did: Did, size: usize) -> bool
    ensures { result ≡ did_fits did program size }
{
    match did {
        Did::Nothing => is_title(program),
        Did::Read(k) => asks_read(program) && k <= size,
        Did::Wrote(k) => 1 <= k && k <= left_of(program),
        Did::Failed => false,
    }
}
