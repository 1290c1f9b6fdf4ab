// What a frame says to a head. The definitions are in specs/, their laws in proofs/; frame_codec reads and writes frames.
#![tactic(auto)]

use terms::Entry;

// What a frame said: an entry, in a collection round; a list, or a confession, in a confession round; or why it is refused. The table of a
// list is apart (D16d). A refusal is one of these, and no Result: `frame_codec::write` takes any of them, and writes nothing of a refusal.
#[derive(Clone, Copy)]
pub enum Said {
    Refused(u8),
    Collection(Entry),
    List,
    Confession,
}
