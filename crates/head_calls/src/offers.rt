// The offer (document 02, A8), which the host keeps with the record, and its adoption.
ghost use Rattle.std.specs.Prelude.{◌≡◌};
ghost use Rattle.head_spec.specs.Answers.{answer_of};
ghost use Rattle.head_spec.specs.Calls.{adopt};
ghost use Rattle.head_spec.specs.Offers.{lapsed, offered};

use crate::closing::closed_phase;
use head_spec::{Closed, Head, Offer};
use terms::Refusal;

// Adopts what is offered, and ends the phase. Refusals 27, 26.
pub fn adopt(h: Head, offer: Offer) -> Result<Head, Refusal>
    ensures { answer_of h result ≡ adopt h offer }
{
    let seat = h.seat;
    match offer {
        None => Err(Refusal::NoOffer),
        Some(kept) => {
            if seat.ended {
                return Err(Refusal::RunHasEnded);
            }
            Ok(closed_phase(h, kept))
        }
    }
}

// The offer after a start, a restart, a hearing or an adoption that answered this number, which may be any: a `Refusal` would be a narrower
// type.
pub fn lapsed(number: u8, offer: Offer) -> Offer
    ensures { result ≡ lapsed number offer }
{
    if number == 0 {
        return None;
    }
    offer
}

// The offer after a closing that answered c.
pub fn offered(c: Closed, offer: Offer) -> Offer
    ensures { result ≡ offered c offer }
{
    match c {
        Closed::Refused(_) => offer,
        Closed::Listed => offer,
        Closed::Settled(kept) => Some(kept),
    }
}
