// Whether a leaf, and the messages of an interior node, are sound, and how many entries each has: one walk tells both.
// Relies on node for the entries, on octets for their order on path for the shape of their keys, and on laws.
ghost use Rattle.std.specs.Prelude.{◌≡◌, length};
ghost use Rattle.image.specs.Prelude.{none};
ghost use Rattle.image.specs.Entry.{entries_of};
ghost use Rattle.laws.specs.Reading.SoundHere.{message_here};
ghost use Rattle.node.specs.Entries.{list_of};
ghost use Rattle.node.specs.Lent.{message_is, value_is};
ghost use Rattle.tree_check.specs.Node.Inside.{messages_run};
ghost use Rattle.path.specs.Fed.{shape_is};
ghost use Rattle.tree_check.specs.Node.Leaf.{leaf_run};
ghost use Rattle.tree_check.specs.Node.Ends.{after, row_next, closes};
ghost use Rattle.tree_check.specs.Node.Counted.{Counts};

use node::entries::{Entry, Message, read_entry};
use path::Shape;

// Whether a key comes after the one before it, or is not below the low pivot where there is none.
#[tactic(auto, unfolding(crate::specs::Node::Ends::after))]
pub fn follows_on(previous: Option<&[u8]>, lo: &[u8], key: &[u8]) -> bool
    ensures { result ≡ after lo.now (value_is previous.entry) key.now }
{
    match previous {
        Some(before) => octets::precedes(before, key),
        None => !octets::precedes(key, lo),
    }
}

#[tactic(auto, unfolding(crate::specs::Node::Ends::row_next, image::specs::Path::value_fits))]
pub fn row_good(previous: Option<&[u8]>, key: &[u8], value: &[u8], lo: &[u8], sh: Shape) -> bool
    ensures { result ≡ row_next (shape_is sh) lo.now (value_is previous.entry) key.now value.now }
{
    follows_on(previous, lo, key) && path::goes_on(sh, key) && value.len() <= image::VALUE_LIMIT
}

// Whether the last key, if there is one, is below the high pivot.
#[tactic(auto, unfolding(crate::specs::Node::Ends::closes))]
pub fn ends_below(previous: Option<&[u8]>, hi: &[u8]) -> bool
    ensures { result ≡ closes hi.now (value_is previous.entry) }
{
    match previous {
        Some(last) => octets::precedes(last, hi),
        None => true,
    }
}

// Whether bytes are the pairs of a sound leaf, and how many. Its keys rise, so that only the first is held against the low pivot, and only the last
// against the high one. Each has to read, up to the last byte: node's iterator would end alike where one does not.
pub fn check_leaf(entries: &[u8], lo: &[u8], hi: &[u8], sh: Shape) -> Option<usize>
    ensures { Counts (leaf_run (shape_is sh) lo.now hi.now none (entries_of entries.now)) (length (list_of entries.now)) result }
{
    let mut rest = entries;
    let mut previous: Option<&[u8]> = None;
    let mut count: usize = 0;
    while !rest.is_empty() {
        let (entry, behind) = read_entry(rest)?;
        let Entry::Pair(key, value) = entry else {
            return None;
        };
        if !row_good(previous, key, value, lo, sh) {
            return None;
        }
        previous = Some(key);
        count += 1;
        rest = behind;
    }
    if !ends_below(previous, hi) {
        return None;
    }
    Some(octets::capped_sum(count, 0))
}

#[tactic(auto, unfolding(laws::specs::Reading::SoundHere::message_here, image::specs::Path::value_fits, image::specs::Bytes::same))]
pub fn message_good(message: Message, lo: &[u8], hi: &[u8], sh: Shape) -> bool
    ensures { result ≡ message_here (shape_is sh) lo.now hi.now (message_is message.entry) }
{
    match message {
        Message::Put(key, value) => {
            value.len() <= image::VALUE_LIMIT
                && octets::owned(lo, hi, key)
                && path::goes_on(sh, key)
        }
        Message::Drop(key) => octets::owned(lo, hi, key) && path::goes_on(sh, key),
        Message::Clear(key) => key.is_empty() || path::goes_on(sh, key),
    }
}

// Whether bytes are sound messages, and how many. Each has to read, as in check_leaf.
pub fn check_messages(entries: &[u8], lo: &[u8], hi: &[u8], sh: Shape) -> Option<usize>
    ensures { Counts (messages_run (shape_is sh) lo.now hi.now (entries_of entries.now)) (length (list_of entries.now)) result }
{
    let mut rest = entries;
    let mut count: usize = 0;
    while !rest.is_empty() {
        let (entry, behind) = read_entry(rest)?;
        let Entry::Message(message) = entry else {
            return None;
        };
        if !message_good(message, lo, hi, sh) {
            return None;
        }
        count += 1;
        rest = behind;
    }
    Some(octets::capped_sum(count, 0))
}
