// Starts and restarts of a head or a listener.
ghost use Rattle.std.specs.Prelude.{◌≡◌};
ghost use Rattle.terms.specs.Sizes.{rounds_of};
ghost use Rattle.terms.specs.Refused.{number_of};
ghost use Rattle.head_spec.specs.Answers.{answer_of};
ghost use Rattle.head_spec.specs.Calls.{is_time, start_refusal, start, restart, start_listener, restart_listener};
ghost use Rattle.head_spec.specs.Record.{no_entries, opened};
ghost use Rattle.head_spec.specs.Seats.{first_seat};
ghost use Rattle.head_calls.specs.Steps.{is_member, check_member, check_restart, restart_as};

use crate::seats::{first_seat, healed_seat};
use crate::{no_entries, opened};
use head_spec::Head;
use terms::{Entry, Family, Refusal};

// Whether a number is taken: for a head, or for a listener.
fn is_member(listens: bool, n: u32, number: u32) -> bool
    ensures { result ≡ is_member listens n number }
{
    if listens {
        return terms::is_listener(number);
    }
    number < n
}

// Refusals 1, 2 or 18, and 3: of a head, or of a listener.
pub fn check_member(
    family: Family,
    listens: bool,
    n: u32,
    f: u32,
    number: u32,
) -> Result<(), Refusal>
    ensures { number_of result ≡ check_member family listens n f number 0 }
{
    terms::check_size(family, n, f)?;
    if !is_member(listens, n, number) {
        return Err(Refusal::NumberTooHigh);
    }
    Ok(())
}

// What a start with a position is refused for: 1, 2 or 18, 3, 4.
pub fn check_start(
    family: Family,
    n: u32,
    f: u32,
    number: u32,
    position: i32,
) -> Result<(), Refusal>
    ensures { number_of result ≡ start_refusal family n f number position }
{
    check_member(family, false, n, f, number)?;
    if !terms::is_position(position) {
        return Err(Refusal::PositionOutOfRange);
    }
    Ok(())
}

// What a restart of a head or a listener is refused for: 1, 2 or 18, 3, 5.
pub fn check_restart(
    family: Family,
    listens: bool,
    n: u32,
    f: u32,
    number: u32,
    phase: u32,
    round: u32,
) -> Result<(), Refusal>
    ensures { number_of result ≡ check_restart family listens n f number phase round }
{
    check_member(family, listens, n, f, number)?;
    if !is_time(family, phase, round) {
        return Err(Refusal::PhaseOutOfRange);
    }
    Ok(())
}

// Whether there is such a phase, and such a round.
pub fn is_time(family: Family, phase: u32, round: u32) -> bool
    ensures { result ≡ is_time family phase round }
{
    if !terms::is_phase(phase) {
        return false;
    }
    round < rounds_of(family)
}

// How many rounds a phase has.
fn rounds_of(family: Family) -> u32
    ensures { result ≡ rounds_of family }
{
    match family {
        Family::TwoRounds => 2,
        Family::OneRound => 1,
    }
}

// The record of a head or a listener that starts, in phase 1, with a position or none.
fn started(family: Family, listens: bool, n: u32, f: u32, number: u32, held: Entry) -> Head
    requires { check_member family listens n f number 0 ≡ 0 }
    ensures { result ≡ opened (first_seat family n f number held) no_entries }
{
    opened(
        first_seat(family, n as u8, f as u8, number as u8, held),
        no_entries(),
    )
}

// The record of a head that starts with a position, in phase 1.
pub fn start(family: Family, n: u32, f: u32, number: u32, position: i32) -> Result<Head, Refusal>
    ensures { (h : Head) → answer_of h result ≡ start h family n f number position }
{
    check_start(family, n, f, number, position)?;
    Ok(started(family, false, n, f, number, Some(position)))
}

// The record of a listener that starts, in phase 1, with no position.
pub fn start_listener(family: Family, n: u32, f: u32, number: u32) -> Result<Head, Refusal>
    ensures { (h : Head) → answer_of h result ≡ start_listener h family n f number }
{
    check_member(family, true, n, f, number)?;
    Ok(started(family, true, n, f, number, None))
}

// The record of a head or a listener whose strike is over, in the phase and round given, with no position.
fn restart_as(
    family: Family,
    listens: bool,
    n: u32,
    f: u32,
    number: u32,
    phase: u32,
    round: u32,
) -> Result<Head, Refusal>
    ensures { (h : Head) → answer_of h result ≡ restart_as family listens h n f number phase round }
{
    check_restart(family, listens, n, f, number, phase, round)?;
    let seat = healed_seat(
        family,
        n as u8,
        f as u8,
        number as u8,
        phase as u16,
        round as u8,
    );
    Ok(opened(seat, no_entries()))
}

// The record of a head whose strike is over, in the phase and round given, with no position.
pub fn restart(
    family: Family,
    n: u32,
    f: u32,
    number: u32,
    phase: u32,
    round: u32,
) -> Result<Head, Refusal>
    ensures { (h : Head) → answer_of h result ≡ restart h family n f number phase round }
{
    restart_as(family, false, n, f, number, phase, round)
}

// The record of a listener whose strike is over, likewise.
pub fn restart_listener(
    family: Family,
    n: u32,
    f: u32,
    number: u32,
    phase: u32,
    round: u32,
) -> Result<Head, Refusal>
    ensures { (h : Head) → answer_of h result ≡ restart_listener h family n f number phase round }
{
    restart_as(family, true, n, f, number, phase, round)
}
