// Writing what a head has to say.
ghost use Rattle.std.specs.Prelude.{◌≡◌};
ghost use Rattle.terms.specs.Refused.{numbered};
ghost use Rattle.head_spec.specs.Calls.{write_answer, write_buffer};
ghost use Rattle.head_calls.specs.Steps.{said_by};

use frame_spec::Said;
use head_spec::{Head, Seat};
use terms::Refusal;

// What a head has to say; the table of a list is the record's.
fn spoken(seat: Seat) -> Said
    ensures { result ≡ said_by seat.round seat }
{
    if seat.round == 0 {
        if seat.healed {
            return Said::Collection(None);
        }
        let position = seat.position;
        return Said::Collection(position);
    }
    if seat.healed {
        Said::Confession
    } else {
        Said::List
    }
}

// Writes what the head has to say at the front of the buffer; a listener sends nothing.
pub fn write(h: Head, buffer: &mut [u8]) -> Result<usize, Refusal>
    ensures answer { numbered result ≡ write_answer h buffer.old }
    ensures bytes { buffer.new ≡ write_buffer h buffer.old }
{
    let seat = h.seat;
    if seat.ended {
        return Err(Refusal::RunHasEnded);
    }
    if terms::is_listener(seat.number as u32) {
        return Err(Refusal::ListenerSendsNothing);
    }
    let list = h.list;
    frame_codec::write(spoken(seat), list, seat.n, seat.number, seat.phase, buffer)
}
