// The calls on the record of a head or a listener, by value: start, restart, write, close, adopt. (head_hear has hearing.) Each
// promise is one equation with a definition of head_spec's specs/Calls.antt; a refusal gives its number and leaves the record as it was.
#![tactic(auto)]

ghost use Rattle.std.specs.Prelude.{◌≡◌};
ghost use Rattle.head_spec.specs.Record.{no_entries, opened};

use head_spec::{Head, Row, Seat};
use settle_trust::Links;
use terms::{HEADS, Table};

mod closing;
mod offers;
mod seats;
mod starts;
mod writing;

pub use closing::{close, is_last_round};
pub use offers::{adopt, lapsed, offered};
pub use seats::{confession_seat, first_seat, healed_seat, next_seat};
pub use starts::{
    check_member, check_restart, check_start, is_time, restart, restart_listener, start,
    start_listener,
};
pub use writing::write;

// A table of nulls.
pub fn no_entries() -> Table
    ensures { result ≡ no_entries }
{
    let entries = [0i32; HEADS]; // a null entry holds 0
    Table { marks: 0, entries }
}

// The record with nothing heard. Start, restart and closing make a record here and nowhere else.
pub fn opened(seat: Seat, list: Table) -> Head
    ensures { result ≡ opened seat list }
{
    let marks = [0u32; HEADS];
    let links = Links {
        confessed: 0,
        listed: 0,
        marks,
    };
    let entries = [0i32; HEADS];
    let row = Row { entries };
    let lists = [row; HEADS];
    Head {
        seat,
        heard: 0,
        list,
        links,
        lists,
    }
}
