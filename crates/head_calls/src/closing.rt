// Closing a round, and what the end of a round makes of a record.
ghost use Rattle.std.specs.Prelude.{◌≡◌, true};
ghost use Rattle.terms.specs.Refused.{numbered};
ghost use Rattle.head_spec.specs.Record.{rows};
ghost use Rattle.head_spec.specs.Calls.{closed_collection, closed_phase, settling_of, close_in, is_last_round, close};

use crate::seats::{confession_seat, next_seat};
use crate::{no_entries, opened};
use head_spec::{Closed, Closing, Head, Row, Seat};
use settle_midpoint::Kept;
use terms::{Family, HEADS, Lists, Refusal};

// The lists received, without their marks, as settling takes them.
fn laid_out(lists: [Row; HEADS]) -> Lists
    ensures { result ≡ rows lists }
{
    let mut out = [[0i32; HEADS]; HEADS];
    for (k, row) in lists.iter().enumerate() {
        out[k] = row.entries;
    }
    out
}

// The collection round is closed: the list is kept for the confession round.
fn closed_collection(h: Head) -> Head
    ensures { result ≡ closed_collection h }
{
    let seat = h.seat;
    let list = h.list;
    opened(confession_seat(seat), list)
}

// The phase has ended and settled a position with its kept range.
pub(crate) fn closed_phase(h: Head, kept: Kept) -> Head
    ensures { result ≡ closed_phase h kept }
{
    let seat = h.seat;
    opened(next_seat(seat, kept), no_entries())
}

// What the end of a phase settles: in a ring of two rounds from the lists, in one of one round from what was heard.
fn settled_by(h: Head) -> Result<Kept, Refusal>
    ensures { numbered result ≡ settling_of h }
{
    let seat = h.seat;
    let family = seat.family;
    let up = terms::rounds_up(seat.phase);
    match family {
        Family::TwoRounds => {
            let lists = h.lists;
            let links = h.links;
            settle_position::settle(laid_out(lists), links, seat.n, seat.f, up)
        }
        Family::OneRound => {
            let list = h.list;
            settle_midpoint::settle_table(list, Family::OneRound, seat.n, seat.f, up)
        }
    }
}

// Closes the last round of a phase: the position is offered, and the record stays as it is.
fn close_last(h: Head) -> Closing
    ensures { result ≡ close_in true h }
{
    match settled_by(h) {
        Err(refusal) => Closing {
            closed: Closed::Refused(refusal.number()),
            head: h,
        },
        Ok(kept) => Closing {
            closed: Closed::Settled(kept),
            head: h,
        },
    }
}

// Whether the round is the last of its phase.
pub fn is_last_round(seat: Seat) -> bool
    ensures { result ≡ is_last_round seat }
{
    let family = seat.family;
    match family {
        Family::TwoRounds => seat.round != 0,
        Family::OneRound => true,
    }
}

// Closes the round: it ends a collection round, and in the last round of a phase it offers the position.
pub fn close(h: Head) -> Closing
    ensures { result ≡ close h }
{
    let seat = h.seat;
    if seat.ended {
        return Closing {
            closed: Closed::Refused(Refusal::RunHasEnded.number()),
            head: h,
        };
    }
    if !is_last_round(seat) {
        let head = closed_collection(h);
        return Closing {
            closed: Closed::Listed,
            head,
        };
    }
    close_last(h)
}
