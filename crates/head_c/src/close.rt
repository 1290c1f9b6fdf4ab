// Closing, on the block itself.
ghost use Rattle.std.specs.Prelude.{◌≡◌, true};
ghost use Rattle.terms.specs.Refused.{numbered};
ghost use Rattle.head_spec.specs.Calls.{closed_collection, settling_of, close_in, close};
ghost use Rattle.head_lent.specs.Answers.{closed_number};
ghost use Rattle.head_c.specs.Blocks.{IsBlock, head_of, with_head};
ghost use Rattle.head_c.specs.Steps.{BlockCloses};

use crate::block::{clear_links, links_in, list_in, put_offer, put_seat, seat_in};
use crate::{place, settle};
use head_spec::Closed;
use settle_midpoint::Kept;
use terms::{Family, Refusal};

// What the end of a phase settles: in a ring of two rounds from the lists, in one of one round from what was heard.
fn settled_in(h: &[u32]) -> Result<Kept, Refusal>
    requires { IsBlock h.now }
    ensures { numbered result ≡ settling_of (head_of h.now) }
{
    let seat = seat_in(h);
    let family = seat.family;
    let up = terms::rounds_up(seat.phase);
    match family {
        Family::TwoRounds => {
            let links = links_in(h);
            settle::settle_lists(h, links, seat.n, seat.f, up)
        }
        Family::OneRound => {
            let list = list_in(h);
            settle_midpoint::settle_table(list, Family::OneRound, seat.n, seat.f, up)
        }
    }
}

// Closes a collection round: the list stands, in its words too.
fn close_collection(h: &mut [u32])
    requires { IsBlock h.old }
    ensures { h.new ≡ with_head (closed_collection (head_of h.old)) h.old }
{
    let seat = seat_in(h);
    put_seat(h, head_calls::confession_seat(seat));
    h[place::HEARD] = 0; // of the next round
    clear_links(h);
}

// Closes the last round of a phase: what it settles is offered.
fn close_last(h: &mut [u32]) -> Closed
    requires { IsBlock h.old }
    ensures { BlockCloses (close_in true (head_of h.old)) h.old result h.new }
{
    match settled_in(h) {
        Err(refusal) => Closed::Refused(refusal.number()),
        Ok(kept) => {
            put_offer(h, kept);
            Closed::Settled(kept)
        }
    }
}

// Closes the round.
pub(crate) fn close_in(h: &mut [u32]) -> Closed
    requires { IsBlock h.old }
    ensures { BlockCloses (close (head_of h.old)) h.old result h.new }
{
    if h[place::ENDED] != 0 {
        return Closed::Refused(Refusal::RunHasEnded.number());
    }
    if !head_calls::is_last_round(seat_in(h)) {
        close_collection(h);
        return Closed::Listed;
    }
    close_last(h)
}

// The number of a closing.
pub(crate) fn closed_number(c: Closed) -> u8
    ensures { result ≡ closed_number c }
{
    match c {
        Closed::Refused(number) => number,
        Closed::Listed => 0,
        Closed::Settled(_) => 0,
    }
}
