// The head as a register window of sixteen bytes, on a bus of the camera's own. Only writing changes the block, and of it events and mask
// alone. Refusal 26 is not checked here: the window goes on after the last phase end.
ghost use Rattle.std.specs.Prelude.{◌≡◌};
ghost use Rattle.terms.specs.Counting.{bit};
ghost use Rattle.head_window.specs.Window.{window, read_refusal, byte_read, set_refusal, is_line_up};
ghost use Rattle.head_c.specs.Blocks.{IsBlock, head_of, registers_of};
ghost use Rattle.head_c.specs.Events.{sets, block_after, window_reset};

use crate::Block;
use crate::block::{put_registers, registers_in, seat_in};
use head_window::Window;

// The sixteen bytes.
fn window_in(h: &[u32]) -> Window
    requires { IsBlock h.now }
    ensures { result ≡ window (head_of h.now).seat (registers_of h.now) }
{
    head_window::window(seat_in(h), registers_in(h))
}

// Reads a byte of the window: 0, or 16.
pub fn focus_head_register(h: &Block, at: u32, byte: &mut u8) -> u8
    ensures { (result ≡ read_refusal at)
        × (byte.new ≡ byte_read (head_of h.now).seat (registers_of h.now) at byte.old) }
{
    match head_window::read_refusal(at) {
        Err(refusal) => refusal.number(),
        Ok(()) => {
            let bytes = window_in(h);
            *byte = bytes[at as usize];
            0
        }
    }
}

// Reads all sixteen.
pub fn focus_head_window(h: &Block, bytes: &mut Window)
    ensures { bytes.new ≡ window (head_of h.now).seat (registers_of h.now) }
{
    *bytes = window_in(h);
}

// Writes a byte of the window: 0, or 16. Byte 10 clears the events written as one; byte 11 sets the mask.
pub fn focus_head_set_register(h: &mut Block, at: u32, byte: u8) -> u8
    ensures { (result ≡ set_refusal at) × (h.new ≡ block_after h.old (sets at byte)) }
{
    let b = head_window::set_register(at, byte, registers_in(h));
    put_registers(h, b);
    terms::number_of(head_window::set_refusal(at))
}

// Writes both bytes anew after a strike, which may have left anything beside the head: no event is pending then, and the mask is given. A
// restart that follows sets its event.
pub fn focus_head_window_reset(h: &mut Block, mask: u8)
    ensures { h.new ≡ window_reset h.old mask }
{
    focus_head_set_register(h, 10, 7);
    focus_head_set_register(h, 11, mask);
}

// Whether the interrupt line is up: 1, or 0.
pub fn focus_head_has_interrupt(h: &Block) -> u8
    ensures { result ≡ bit (is_line_up (registers_of h.now)) }
{
    head_window::is_line_up(registers_in(h)) as u8
}
