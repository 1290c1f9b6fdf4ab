// What camera hosts read (document 02, A14): the reading of a head, and the page of n heads. Neither changes a block.
ghost use Rattle.std.specs.Prelude.{◌≡◌};
ghost use Rattle.reading.specs.Readings.{head_reading};
ghost use Rattle.hostpage.specs.Page.{page_answer, page_in};
ghost use Rattle.head_lent.specs.Answers.{written_number, written_or};
ghost use Rattle.head_c.specs.Blocks.{head_of};
ghost use Rattle.head_c.specs.Pages.{reading_kind, floats_or, reading_at, readings_of};

use crate::block::seat_in;
use crate::{Block, WORDS};
use hostpage::Readings;
use reading::Reading;
use std::array;
use terms::Refusal;

// The head's reading: 0 unknown; 1 a point, and its float; 2 a range, and its lowest, its highest and their midpoint.
pub fn focus_head_reading(h: &Block, floats: &mut [f32; 3]) -> u8
    ensures { (result ≡ reading_kind (head_reading (head_of h.now)))
        × (floats.new ≡ floats_or (head_reading (head_of h.now)) floats.old) }
{
    let seat = seat_in(h);
    let kept = seat.kept;
    match reading::reading_of(kept) {
        Reading::Unknown => 0,
        Reading::Point(x) => {
            floats[0] = x;
            1
        }
        Reading::Range(k) => {
            *floats = [k.lowest, k.highest, k.midpoint];
            2
        }
    }
}

// The reading of head k of those whose blocks follow one another; unknown if its block is not there in full.
fn reading_at(blocks: &[u32], k: usize) -> Reading
    ensures { result ≡ reading_at blocks.now k }
{
    if blocks.len() / WORDS <= k {
        return Reading::Unknown;
    }
    let from = WORDS * k;
    let seat = seat_in(&blocks[from..from + WORDS]);
    let kept = seat.kept;
    reading::reading_of(kept)
}

// The readings of 32 heads.
fn readings_in(blocks: &[u32]) -> Readings
    ensures { result ≡ readings_of blocks.now }
{
    array::from_fn(|k| reading_at(blocks, k))
}

// The page of n heads whose blocks follow one another, at the front of the buffer, and its length: 0, or 1, 24.
pub fn focus_host_page(blocks: &[u32], n: u32, buffer: &mut [u8], length: &mut usize) -> u8
    ensures { (result ≡ written_number (page_answer n (readings_of blocks.now) buffer.old))
        × (buffer.new ≡ page_in n (readings_of blocks.now) buffer.old)
        × (length.new ≡ written_or (page_answer n (readings_of blocks.now) buffer.old) length.old) }
{
    if 32 < n {
        return Refusal::BadHeadCount.number();
    }
    match hostpage::page(n as u8, readings_in(blocks), buffer) {
        Err(refusal) => refusal.number(),
        Ok(len) => {
            *length = len;
            0
        }
    }
}
