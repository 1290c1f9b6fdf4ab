// rigplay: a run file from standard input, its listing to standard output. It does what run_program tells it: each turn it makes the one
// system call that is asked for, and says what that did.
#![tactic(auto)]

ghost use Rattle.std.specs.Prelude.{◌<◌, ◌^◌};
ghost use Rattle.std.specs.Result.{ForOk};

use frame_slots::{PlantedBytes, PlantedLengths};
use run_program::{Ask, Did};
use run_state::Carry;
use run_stream::Page;
use std::io;
use std::io::{Print, Read};
use terms::{HEADS, Lists, Positions, RECEIVERS, Words};

// How many bytes are read at a time, at most.
const PIECE: usize = 131072;

// What a system call gave, as C's read and write answer it.
fn answer(got: io::Result<usize>) -> isize
    requires { ForOk got (λ n. n < 2 ^ 63) }
{
    match got {
        Ok(n) => n as isize,
        Err(_) => -1,
    }
}

// Makes the system call that is asked for.
fn call(rt: &HostRuntime, ask: Ask, piece: &mut [u8], page: &Page) -> Did {
    match ask {
        Ask::Read => {
            let got = rt.stdin().read(piece);
            run_program::after_read(answer(got))
        }
        Ask::Write { from, to } => {
            let got = rt.stdout().write_some(run_program::asked(page, from, to));
            run_program::after_write(answer(got))
        }
        Ask::Stop => Did::Nothing,
    }
}

// Step by step. A proved loop ends, and nothing says that the input does: there are as many turns as no run uses up.
fn run(
    rt: &HostRuntime,
    piece: &mut [u8],
    page: &mut Page,
    carry: &mut Carry,
    positions: &mut Positions,
    marks: &mut Words,
    lists: &mut Lists,
    planted: &mut PlantedBytes,
    lengths: &mut PlantedLengths,
) {
    let mut program = run_program::begin();
    let mut did = Did::Nothing;
    for _ in 0..u64::MAX {
        let stepped = run_program::step(
            program, did, piece, page, carry, positions, marks, lists, planted, lengths,
        );
        program = stepped.program;
        let ask = stepped.ask;
        if let Ask::Stop = ask {
            return;
        }
        did = call(rt, ask, piece, page);
    }
}

fn main(rt: HostRuntime) {
    let mut piece = [0u8; PIECE];
    let mut page = [0u8; run_stream::PAGE];
    let mut carry = [0u8; run_state::CARRY];
    let mut positions = [0i32; RECEIVERS];
    let mut marks = [0u32; HEADS];
    let none = [0i32; HEADS];
    let mut lists = [none; HEADS];
    let mut planted = [0u8; frame_slots::BYTES];
    let mut lengths = [0u8; frame_slots::LINKS];
    run(
        &rt,
        &mut piece,
        &mut page,
        &mut carry,
        &mut positions,
        &mut marks,
        &mut lists,
        &mut planted,
        &mut lengths,
    );
}
