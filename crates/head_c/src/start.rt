// Starts and restarts in a ring of either family, left in the block.
ghost use Rattle.std.specs.Prelude.{◌≡◌, ◌%◌};
ghost use Rattle.head_spec.specs.Seats.{first_seat, healed_seat};
ghost use Rattle.head_spec.specs.Calls.{start, restart, start_listener, restart_listener};
ghost use Rattle.head_c.specs.Blocks.{head_of};
ghost use Rattle.head_c.specs.Events.{starts, restarts, starts_listener, restarts_listener, block_after};

use crate::Block;
use crate::block::{put_fresh, registers_in};
use head_spec::Seat;
use terms::{Entry, Family};

// The seat of a start whose checks pass.
fn first_seat(family: Family, n: u32, f: u32, number: u32, held: Entry) -> Seat
    ensures { result ≡ first_seat family (n % 256) (f % 256) (number % 256) held }
{
    head_calls::first_seat(
        family,
        (n % 256) as u8,
        (f % 256) as u8,
        (number % 256) as u8,
        held,
    )
}

// The seat of a restart whose checks pass.
fn restart_seat(family: Family, n: u32, f: u32, number: u32, phase: u32, round: u32) -> Seat
    ensures { result ≡ healed_seat family (n % 256) (f % 256) (number % 256) (phase % 65536) (round % 256) }
{
    head_calls::healed_seat(
        family,
        (n % 256) as u8,
        (f % 256) as u8,
        (number % 256) as u8,
        (phase % 65536) as u16,
        (round % 256) as u8,
    )
}

pub(crate) fn start_in(
    h: &mut Block,
    family: Family,
    n: u32,
    f: u32,
    number: u32,
    position: i32,
) -> u8
    ensures { (result ≡ (start (head_of h.old) family n f number position).refusal)
        × (h.new ≡ block_after h.old (starts family n f number position)) }
{
    let refused = terms::number_of(head_calls::check_start(family, n, f, number, position));
    let seat = first_seat(family, n, f, number, Some(position));
    let b = head_window::after_start(refused, registers_in(h)); // a start clears both
    put_fresh(h, refused, seat, b);
    refused
}

pub(crate) fn restart_in(
    h: &mut Block,
    family: Family,
    n: u32,
    f: u32,
    number: u32,
    phase: u32,
    round: u32,
) -> u8
    ensures { (result ≡ (restart (head_of h.old) family n f number phase round).refusal)
        × (h.new ≡ block_after h.old (restarts family n f number phase round)) }
{
    let checked = head_calls::check_restart(family, false, n, f, number, phase, round);
    let refused = terms::number_of(checked);
    let seat = restart_seat(family, n, f, number, phase, round);
    let b = head_window::after_restart(refused, registers_in(h));
    put_fresh(h, refused, seat, b);
    refused
}

pub(crate) fn start_listener_in(h: &mut Block, family: Family, n: u32, f: u32, number: u32) -> u8
    ensures { (result ≡ (start_listener (head_of h.old) family n f number).refusal)
        × (h.new ≡ block_after h.old (starts_listener family n f number)) }
{
    let refused = terms::number_of(head_calls::check_member(family, true, n, f, number));
    let seat = first_seat(family, n, f, number, None);
    let b = head_window::after_start(refused, registers_in(h));
    put_fresh(h, refused, seat, b);
    refused
}

pub(crate) fn restart_listener_in(
    h: &mut Block,
    family: Family,
    n: u32,
    f: u32,
    number: u32,
    phase: u32,
    round: u32,
) -> u8
    ensures { (result ≡ (restart_listener (head_of h.old) family n f number phase round).refusal)
        × (h.new ≡ block_after h.old (restarts_listener family n f number phase round)) }
{
    let checked = head_calls::check_restart(family, true, n, f, number, phase, round);
    let refused = terms::number_of(checked);
    let seat = restart_seat(family, n, f, number, phase, round);
    let b = head_window::after_restart(refused, registers_in(h)); // a restart sets its event
    put_fresh(h, refused, seat, b);
    refused
}
