// Frames side by side: a slot of 140 bytes and a length for each. The bytes planted in a round have a slot for each link.
#![tactic(auto)]

ghost use Rattle.std.specs.Prelude.{true, List, [], ◌↔◌, ◌≡◌, ℕ, ◌+◌, ◌*◌, ◌≤◌, ◌<◌, length, get_or, set};
ghost use Rattle.frame_slots.specs.Slots.{slot, planted_in, with_planted, with_length, PlantedThen};

use terms::{HEADS, RECEIVERS};

// The longest frame, a list of 32 entries, has 140 bytes.
pub const SLOT: usize = 140;

// A slot for each link from a head to a receiver, and how many bytes it holds.
pub const LINKS: usize = HEADS * RECEIVERS;

pub const BYTES: usize = LINKS * SLOT;

pub type PlantedBytes = [u8; BYTES];

pub type PlantedLengths = [u8; LINKS];

// The bytes of slot k, as many as its length says, and are there.
pub fn slot<'a, 'b>(bytes: &'a [u8], lengths: &'b [u8], k: u16) -> &'a [u8]
    ensures { result.now ≡ slot bytes.now lengths.now k }
{
    let from = SLOT * (k as usize);
    let size = bytes.len();
    if size <= from {
        return &bytes[..0];
    }
    let len = fields::byte_at(lengths, k as usize) as usize;
    if size - from <= len {
        return &bytes[from..];
    }
    let to = from + len;
    &bytes[from..to]
}

// The bytes planted on the link from k to i.
pub fn planted<'a, 'b>(bytes: &'a [u8], lengths: &'b [u8], k: u8, i: u8) -> &'a [u8]
    ensures { result.now ≡ planted_in bytes.now lengths.now k i }
{
    slot(bytes, lengths, 48 * (k as u16) + (i as u16))
}

// Whether two slices have the same bytes. Lists that differ mostly do at byte 20, an entry's lowest: it is looked at first. Then all are,
// many at once.
fn is_same(a: &[u8], b: &[u8]) -> bool
    ensures { (result ≡ true) ↔ (a.now ≡ b.now) }
{
    fields::byte_at(a, 20) == fields::byte_at(b, 20) && a == b
}

// Whether the same is planted on the links from k to i and from k to m.
pub fn is_alike(bytes: &[u8], lengths: &[u8], k: u8, i: u8, m: u8) -> bool
    ensures { (result ≡ true) ↔ (planted_in bytes.now lengths.now k i ≡ planted_in bytes.now lengths.now k m) }
{
    is_same(planted(bytes, lengths, k, i), planted(bytes, lengths, k, m))
}

// Nothing is planted on the links from the first n heads.
pub fn clear(lengths: &mut PlantedLengths, n: u8)
    ensures { (bytes : List ℕ) (k i : ℕ) → k < 32 → k < n → i < 48 → planted_in bytes lengths.new k i ≡ [] }
{
    lengths[..48 * terms::at_most_32(n as usize)].fill(0);
}

// The length of a slot.
fn put_length(lengths: &mut [u8], slot: usize, len: u8)
    requires { slot < length lengths.old }
    ensures { lengths.new ≡ set lengths.old slot len }
{
    lengths[slot] = len;
}

// Plants bytes on the link from k to i: at most 140 bytes, on the links of 32 heads to 48 receivers; else nothing changes.
pub fn plant(planted: &mut PlantedBytes, lengths: &mut PlantedLengths, k: u8, i: u8, bytes: &[u8])
    ensures bytes { planted.new ≡ with_planted planted.old k i bytes.now }
    ensures lengths { lengths.new ≡ with_length lengths.old k i bytes.now }
    ensures reads { PlantedThen k i bytes.now planted.old lengths.old planted.new lengths.new }
{
    if 32 <= k {
        return;
    }
    if 48 <= i {
        return;
    }
    let len = bytes.len();
    if SLOT < len {
        return;
    }
    let slot = 48 * (k as usize) + (i as usize);
    fields::put_bytes(planted, SLOT * slot, bytes);
    put_length(lengths, slot, len as u8);
}
