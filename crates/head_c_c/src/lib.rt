// What C links of a head that it keeps: each call of head_c under its own name, with the contract that it has there.
#![tactic(auto)]

ghost use Rattle.std.specs.Prelude.{◌≡◌, length};
ghost use Rattle.head_spec.specs.Calls.{start, restart, start_listener, restart_listener, write_answer, write_buffer, close, adopt};
ghost use Rattle.head_lent.specs.Answers.{closed_number, written_number, written_or, held_number, held_or, range_number, range_or, offer_number, offer_or};
ghost use Rattle.terms.specs.declared.Family.TheVariants.{TwoRounds, OneRound};
ghost use Rattle.head_c.specs.Blocks.{head_of, offer_of, Hears, HearsBatch, registers_of};
ghost use Rattle.head_c.specs.Events.{starts, restarts, starts_listener, restarts_listener, closes, adopts, block_after, sets, window_reset};
ghost use Rattle.terms.specs.Counting.{bit};
ghost use Rattle.head_window.specs.Window.{is_line_up, window, read_refusal, byte_read, set_refusal};
ghost use Rattle.reading.specs.Readings.{head_reading};
ghost use Rattle.hostpage.specs.Page.{page_answer, page_in};
ghost use Rattle.head_c.specs.Pages.{reading_kind, floats_or, readings_of};

use head_c::Block;
use head_window::Window;

// Starts the head with a position, in phase 1: 0, or 1, 2, 3, 4.
#[unsafe(no_mangle)]
pub extern "C" fn focus_head_start(h: &mut Block, n: u32, f: u32, number: u32, position: i32) -> u8
    ensures { (result ≡ (start (head_of h.old) TwoRounds n f number position).refusal)
        × (h.new ≡ block_after h.old (starts TwoRounds n f number position)) }
{
    head_c::focus_head_start(h, n, f, number, position)
}

// Starts a head again whose strike is over, in the phase and round given, with no position: 0, or 1, 2, 3, 5.
#[unsafe(no_mangle)]
pub extern "C" fn focus_head_restart(
    h: &mut Block,
    n: u32,
    f: u32,
    number: u32,
    phase: u32,
    round: u32,
) -> u8
    ensures { (result ≡ (restart (head_of h.old) TwoRounds n f number phase round).refusal)
        × (h.new ≡ block_after h.old (restarts TwoRounds n f number phase round)) }
{
    head_c::focus_head_restart(h, n, f, number, phase, round)
}

// Starts a listener, in phase 1, with no position: 0, or 1, 2, 3.
#[unsafe(no_mangle)]
pub extern "C" fn focus_listener_start(h: &mut Block, n: u32, f: u32, number: u32) -> u8
    ensures { (result ≡ (start_listener (head_of h.old) TwoRounds n f number).refusal)
        × (h.new ≡ block_after h.old (starts_listener TwoRounds n f number)) }
{
    head_c::focus_listener_start(h, n, f, number)
}

// Starts a listener again whose strike is over, in the phase and round given, with no position: 0, or 1, 2, 3, 5.
#[unsafe(no_mangle)]
pub extern "C" fn focus_listener_restart(
    h: &mut Block,
    n: u32,
    f: u32,
    number: u32,
    phase: u32,
    round: u32,
) -> u8
    ensures { (result ≡ (restart_listener (head_of h.old) TwoRounds n f number phase round).refusal)
        × (h.new ≡ block_after h.old (restarts_listener TwoRounds n f number phase round)) }
{
    head_c::focus_listener_restart(h, n, f, number, phase, round)
}

// Starts the head with a position, in phase 1: 0, or 1, 18, 3, 4.
#[unsafe(no_mangle)]
pub extern "C" fn focus_one_round_start(
    h: &mut Block,
    n: u32,
    f: u32,
    number: u32,
    position: i32,
) -> u8
    ensures { (result ≡ (start (head_of h.old) OneRound n f number position).refusal)
        × (h.new ≡ block_after h.old (starts OneRound n f number position)) }
{
    head_c::focus_one_round_start(h, n, f, number, position)
}

// Starts a head again whose strike is over, in the phase and round given, with no position: 0, or 1, 18, 3, 5.
#[unsafe(no_mangle)]
pub extern "C" fn focus_one_round_restart(
    h: &mut Block,
    n: u32,
    f: u32,
    number: u32,
    phase: u32,
    round: u32,
) -> u8
    ensures { (result ≡ (restart (head_of h.old) OneRound n f number phase round).refusal)
        × (h.new ≡ block_after h.old (restarts OneRound n f number phase round)) }
{
    head_c::focus_one_round_restart(h, n, f, number, phase, round)
}

// Starts a listener, in phase 1, with no position: 0, or 1, 18, 3.
#[unsafe(no_mangle)]
pub extern "C" fn focus_one_round_listener_start(h: &mut Block, n: u32, f: u32, number: u32) -> u8
    ensures { (result ≡ (start_listener (head_of h.old) OneRound n f number).refusal)
        × (h.new ≡ block_after h.old (starts_listener OneRound n f number)) }
{
    head_c::focus_one_round_listener_start(h, n, f, number)
}

// Starts a listener again whose strike is over, in the phase and round given, with no position: 0, or 1, 18, 3, 5.
#[unsafe(no_mangle)]
pub extern "C" fn focus_one_round_listener_restart(
    h: &mut Block,
    n: u32,
    f: u32,
    number: u32,
    phase: u32,
    round: u32,
) -> u8
    ensures { (result ≡ (restart_listener (head_of h.old) OneRound n f number phase round).refusal)
        × (h.new ≡ block_after h.old (restarts_listener OneRound n f number phase round)) }
{
    head_c::focus_one_round_listener_restart(h, n, f, number, phase, round)
}

// Hears a frame on a link: 0, or 26, 3, 21, 6, 7, 8, 22, 9, 23, 10, 11.
#[unsafe(no_mangle)]
pub extern "C" fn focus_head_hear(h: &mut Block, link: u32, frame: &[u8]) -> u8
    ensures { Hears h.old link frame.now result h.new }
{
    head_c::focus_head_hear(h, link, frame)
}

// Hears a round's frames, each behind its link byte, in order, going on past a refused one: 0, or 15, 24. The front of `answers` gets a
// number for each frame, and `count` how many there are.
#[unsafe(no_mangle)]
pub extern "C" fn focus_head_hear_batch(
    h: &mut Block,
    batch: &[u8],
    answers: &mut [u8],
    count: &mut usize,
) -> u8
    ensures { HearsBatch h.old batch.now answers.old count.old
        result h.new answers.new count.new }
{
    head_c::focus_head_hear_batch(h, batch, answers, count)
}

// Closes the round: 0, or 26, 25. It ends a collection round; in the last round of a phase it only offers the position.
#[unsafe(no_mangle)]
pub extern "C" fn focus_head_close(h: &mut Block) -> u8
    ensures { (result ≡ closed_number (close (head_of h.old)).closed)
        × (h.new ≡ block_after h.old closes) }
{
    head_c::focus_head_close(h)
}

// Adopts what is offered, and ends the phase: 0, or 27, 26.
#[unsafe(no_mangle)]
pub extern "C" fn focus_head_adopt(h: &mut Block) -> u8
    ensures { (result ≡ (adopt (head_of h.old) (offer_of h.old)).refusal)
        × (h.new ≡ block_after h.old adopts) }
{
    head_c::focus_head_adopt(h)
}

// What is offered, where it was lent: the lowest kept entry, the highest, the trim and the position. 1, or 0 if there is no offer.
#[unsafe(no_mangle)]
pub extern "C" fn focus_head_has_offer(h: &Block, kept: &mut [i32; 4]) -> u8
    ensures { (result ≡ offer_number (offer_of h.now)) × (kept.new ≡ offer_or (offer_of h.now) kept.old) }
{
    head_c::focus_head_has_offer(h, kept)
}

// Writes what the head has to say at the front of the buffer, and the frame's length: 0, or 26, 17, 24.
#[unsafe(no_mangle)]
pub extern "C" fn focus_head_write(h: &Block, buffer: &mut [u8], length: &mut usize) -> u8
    ensures { (result ≡ written_number (write_answer (head_of h.now) buffer.old))
        × (buffer.new ≡ write_buffer (head_of h.now) buffer.old)
        × (length.new ≡ written_or (write_answer (head_of h.now) buffer.old) length.old) }
{
    head_c::focus_head_write(h, buffer, length)
}

// The position that the head holds: 1, or 0 if it holds none.
#[unsafe(no_mangle)]
pub extern "C" fn focus_head_has_position(h: &Block, position: &mut i32) -> u8
    ensures { (result ≡ held_number (head_of h.now).seat.position)
        × (position.new ≡ held_or (head_of h.now).seat.position position.old) }
{
    head_c::focus_head_has_position(h, position)
}

// The kept range that the head holds: 1, and its lowest entry, its highest, its trim and its position; or 0 if it holds none.
#[unsafe(no_mangle)]
pub extern "C" fn focus_head_has_kept(h: &Block, kept: &mut [i32; 4]) -> u8
    ensures { (result ≡ range_number (head_of h.now).seat.kept)
        × (kept.new ≡ range_or (head_of h.now).seat.kept kept.old) }
{
    head_c::focus_head_has_kept(h, kept)
}

// How many phase ends the head has passed since it was started or restarted, up to 255, where the count rests.
#[unsafe(no_mangle)]
pub extern "C" fn focus_head_since(h: &Block) -> u8
    ensures { result ≡ (head_of h.now).seat.since }
{
    head_c::focus_head_since(h)
}

#[unsafe(no_mangle)]
pub extern "C" fn focus_head_offer(h: &Block, kept: &mut [i32; 4]) -> u8
    ensures { (result ≡ offer_number (offer_of h.now)) × (kept.new ≡ offer_or (offer_of h.now) kept.old) }
{
    head_c::former::focus_head_offer(h, kept)
}

#[unsafe(no_mangle)]
pub extern "C" fn focus_head_position(h: &Block, position: &mut i32) -> u8
    ensures { (result ≡ held_number (head_of h.now).seat.position)
        × (position.new ≡ held_or (head_of h.now).seat.position position.old) }
{
    head_c::former::focus_head_position(h, position)
}

#[unsafe(no_mangle)]
pub extern "C" fn focus_head_kept(h: &Block, kept: &mut [i32; 4]) -> u8
    ensures { (result ≡ range_number (head_of h.now).seat.kept)
        × (kept.new ≡ range_or (head_of h.now).seat.kept kept.old) }
{
    head_c::former::focus_head_kept(h, kept)
}

#[unsafe(no_mangle)]
pub extern "C" fn focus_head_interrupt(h: &Block) -> u8
    ensures { result ≡ bit (is_line_up (registers_of h.now)) }
{
    head_c::former::focus_head_interrupt(h)
}

// The head's reading: 0 unknown; 1 a point, and its float; 2 a range, and its lowest, its highest and their midpoint.
#[unsafe(no_mangle)]
pub extern "C" fn focus_head_reading(h: &Block, floats: &mut [f32; 3]) -> u8
    ensures { (result ≡ reading_kind (head_reading (head_of h.now)))
        × (floats.new ≡ floats_or (head_reading (head_of h.now)) floats.old) }
{
    head_c::page::focus_head_reading(h, floats)
}

// The page of n heads whose blocks follow one another, at the front of the buffer, and its length: 0, or 1, 24.
#[unsafe(no_mangle)]
pub extern "C" fn focus_host_page(
    blocks: &[u32],
    n: u32,
    buffer: &mut [u8],
    length: &mut usize,
) -> u8
    ensures { (result ≡ written_number (page_answer n (readings_of blocks.now) buffer.old))
        × (buffer.new ≡ page_in n (readings_of blocks.now) buffer.old)
        × (length.new ≡ written_or (page_answer n (readings_of blocks.now) buffer.old) length.old) }
{
    head_c::page::focus_host_page(blocks, n, buffer, length)
}

// Reads a byte of the window: 0, or 16.
#[unsafe(no_mangle)]
pub extern "C" fn focus_head_register(h: &Block, at: u32, byte: &mut u8) -> u8
    ensures { (result ≡ read_refusal at)
        × (byte.new ≡ byte_read (head_of h.now).seat (registers_of h.now) at byte.old) }
{
    head_c::window::focus_head_register(h, at, byte)
}

// Reads all sixteen.
#[unsafe(no_mangle)]
pub extern "C" fn focus_head_window(h: &Block, bytes: &mut Window)
    ensures { bytes.new ≡ window (head_of h.now).seat (registers_of h.now) }
{
    head_c::window::focus_head_window(h, bytes);
}

// Writes a byte of the window: 0, or 16. Byte 10 clears the events written as one; byte 11 sets the mask.
#[unsafe(no_mangle)]
pub extern "C" fn focus_head_set_register(h: &mut Block, at: u32, byte: u8) -> u8
    ensures { (result ≡ set_refusal at) × (h.new ≡ block_after h.old (sets at byte)) }
{
    head_c::window::focus_head_set_register(h, at, byte)
}

// Writes both bytes anew after a strike, which may have left anything beside the head: no event is pending then, and the mask is given. A
// restart that follows sets its event.
#[unsafe(no_mangle)]
pub extern "C" fn focus_head_window_reset(h: &mut Block, mask: u8)
    ensures { h.new ≡ window_reset h.old mask }
{
    head_c::window::focus_head_window_reset(h, mask);
}

// Whether the interrupt line is up: 1, or 0.
#[unsafe(no_mangle)]
pub extern "C" fn focus_head_has_interrupt(h: &Block) -> u8
    ensures { result ≡ bit (is_line_up (registers_of h.now)) }
{
    head_c::window::focus_head_has_interrupt(h)
}
