// The seats that calls make: by a start, a restart, the closing of a collection round and the end of a phase.
ghost use Rattle.std.specs.Prelude.{◌≡◌, ◌+◌, min};
ghost use Rattle.head_spec.specs.Seats.{most_counted, first_seat, healed_seat, confession_seat, next_seat};

use head_spec::{LastKept, Seat};
use settle_midpoint::Kept;
use terms::{Entry, Family};

// A start: phase 1 opens.
pub fn first_seat(family: Family, n: u8, f: u8, number: u8, held: Entry) -> Seat
    ensures { result ≡ first_seat family n f number held }
{
    Seat {
        family,
        n,
        f,
        number,
        phase: 1,
        round: 0,
        healed: false,
        ended: false,
        position: held,
        kept: None,
        since: 0,
    }
}

// A restart: the head is healed, with no position and no kept range.
pub fn healed_seat(family: Family, n: u8, f: u8, number: u8, phase: u16, round: u8) -> Seat
    ensures { result ≡ healed_seat family n f number phase round }
{
    let mut seat = first_seat(family, n, f, number, None);
    seat.phase = phase;
    seat.round = round;
    seat.healed = true;
    seat
}

// The collection round is closed.
pub fn confession_seat(seat: Seat) -> Seat
    ensures { result ≡ confession_seat seat }
{
    let mut next = seat;
    next.round = 1;
    next.healed = false;
    next.ended = false;
    next
}

// A phase end more, up to 255, where the count rests.
fn one_more(since: u8) -> u8
    ensures { result ≡ min most_counted (since + 1) }
{
    if since < 255 { since + 1 } else { 255 }
}

// The phase has ended and settled a position with its kept range; after phase 65,535 phase and round stay, and the head has ended.
pub fn next_seat(seat: Seat, kept: Kept) -> Seat
    ensures { result ≡ next_seat seat kept }
{
    let held = Some(kept.position);
    let range = Some(kept);
    let family = seat.family;
    let mut later = Seat {
        family,
        n: seat.n,
        f: seat.f,
        number: seat.number,
        phase: seat.phase,
        round: seat.round,
        healed: false, // that was for one round
        ended: false,
        position: held,
        kept: range,
        since: one_more(seat.since),
    };
    if seat.phase < 65535 {
        later.phase = seat.phase + 1;
        later.round = 0;
    } else {
        later.ended = true;
    }
    later
}
