// The names that four calls had up to version 1.14.1. Programs that use them still link: each does what the call with the new name does.
ghost use Rattle.std.specs.Prelude.{◌≡◌};
ghost use Rattle.terms.specs.Counting.{bit};
ghost use Rattle.head_window.specs.Window.{is_line_up};
ghost use Rattle.head_lent.specs.Answers.{held_number, held_or, range_number, range_or, offer_number, offer_or};
ghost use Rattle.head_c.specs.Blocks.{head_of, offer_of, registers_of};

use crate::Block;

pub fn focus_head_offer(h: &Block, kept: &mut [i32; 4]) -> u8
    ensures { (result ≡ offer_number (offer_of h.now)) × (kept.new ≡ offer_or (offer_of h.now) kept.old) }
{
    crate::focus_head_has_offer(h, kept)
}

pub fn focus_head_position(h: &Block, position: &mut i32) -> u8
    ensures { (result ≡ held_number (head_of h.now).seat.position)
        × (position.new ≡ held_or (head_of h.now).seat.position position.old) }
{
    crate::focus_head_has_position(h, position)
}

pub fn focus_head_kept(h: &Block, kept: &mut [i32; 4]) -> u8
    ensures { (result ≡ range_number (head_of h.now).seat.kept)
        × (kept.new ≡ range_or (head_of h.now).seat.kept kept.old) }
{
    crate::focus_head_has_kept(h, kept)
}

pub fn focus_head_interrupt(h: &Block) -> u8
    ensures { result ≡ bit (is_line_up (registers_of h.now)) }
{
    crate::window::focus_head_has_interrupt(h)
}
