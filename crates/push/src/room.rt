// Whether all children of an interior node have room for its messages: which of them touch a child, and how many bytes they take there.
// Only reads. Relies on the readers of nodes (node), on octets and laws; specs/Laws says what a message brings and what room is.
ghost use Rattle.std.specs.Prelude.{◌≡◌, List, ℕ, ◌<◌, ◌≤◌, ◌+◌, length, drop, leb};
ghost use Rattle.image.specs.Entry.{message};
ghost use Rattle.laws.specs.Encode.{bytes_of, bytes_of_all};
ghost use Rattle.laws.specs.PushDown.{touches};
ghost use Rattle.node.specs.Lent.{entry_is, message_is, left_of};
ghost use Rattle.node.specs.Spans.{pending_of};
ghost use Rattle.push.specs.Laws.Arriving.{lowered_by, brought_all};
ghost use Rattle.push.specs.Laws.Written.{has_room, all_have_room};
ghost use Rattle.push.specs.Brings.{Brings};

use node::branches::{Branch, Branches};
use node::entries::{Entries, Entry, Message};

// Whether a message touches a child with these pivots: the child owns its path, or a clear and what the child lifts begin alike.
#[tactic(auto, unfolding(laws::specs::PushDown::touches))]
fn touches_child(given: Message, child: Branch) -> bool
    ensures { result ≡ touches (message_is given.entry) child.entry.low.now child.entry.high.now }
{
    match given {
        Message::Put(key, _) | Message::Drop(key) => octets::owned(child.low, child.high, key),
        Message::Clear(key) => {
            let k = octets::common_length(child.low, child.high);
            octets::begins_with(key, &child.low[..k]) || octets::begins_with(&child.low[..k], key)
        }
    }
}

// A key without its first k bytes: empty if it has no more.
pub fn past(key: &[u8], k: usize) -> &[u8]
    ensures { result.now ≡ drop k key.now }
{
    key.get(k..).unwrap_or(&[])
}

// A message in a child that lifts k bytes more.
#[tactic(auto, unfolding(crate::specs::Laws::Arriving::lowered_by))]
fn lowered(given: Message, k: usize) -> Message
    ensures { message_is result ≡ lowered_by k (message_is given.entry) }
{
    match given {
        Message::Put(key, value) => Message::Put(past(key, k), value),
        Message::Drop(key) => Message::Drop(past(key, k)),
        Message::Clear(key) => Message::Clear(past(key, k)),
    }
}

// What an entry of the node brings to a child with these pivots: a message that touches it, in the child's own form.
pub fn brought<'a>(entry: Entry<'a>, child: Branch) -> Option<Message<'a>>
    ensures { Brings (entry_is entry.entry) child.entry.low.now child.entry.high.now result }
{
    let Entry::Message(given) = entry else {
        return None;
    };
    if !touches_child(given, child) {
        return None;
    }
    Some(lowered(given, octets::common_length(child.low, child.high)))
}

// The size of a message's entry.
fn message_size(given: Message) -> usize
    requires { length (bytes_of (message (message_is given))) ≤ 1024 }
    ensures { result ≡ length (bytes_of (message (message_is given.entry))) }
{
    match given {
        Message::Put(key, value) => 6 + key.len() + value.len(),
        Message::Drop(key) => 4 + key.len(),
        Message::Clear(key) => 4 + key.len(),
    }
}

// Whether a child with these pivots and so many bytes of entries has room for what the entries of the node bring.
fn messages_fit(entries: Entries, child: Branch, used: usize) -> bool
    requires { (length (bytes_of_all (left_of entries)) ≤ 1024) × (used < 65536) }
    ensures { result ≡ leb (used + length (brought_all (left_of entries.entry) child.entry.low.now child.entry.high.now)) 1016 }
{
    let mut sum = used;
    for entry in entries {
        if image::ENTRIES_LIMIT < sum {
            return false;
        }
        if let Some(given) = brought(entry, child) {
            sum += message_size(given);
        }
    }
    sum <= image::ENTRIES_LIMIT
}

// Whether a child is a node of the store and has room for what the entries of the node bring.
fn child_fits(store: &[u8], child: Branch, entries: Entries) -> bool
    requires { length (bytes_of_all (left_of entries)) ≤ 1024 }
    ensures { result ≡ has_room (left_of entries.entry) child.entry.number child.entry.low.now child.entry.high.now store.now }
{
    if store.len() / image::NODE_SIZE <= child.number {
        return false;
    }
    let used = node::header::read_length(store, child.number * image::NODE_SIZE);
    messages_fit(entries, child, used)
}

// Whether each child does.
pub fn all_fit(store: &[u8], children: Branches, entries: Entries) -> bool
    requires { length (bytes_of_all (left_of entries)) ≤ 1024 }
    ensures { result ≡ all_have_room (left_of entries.entry) (pending_of children.entry) children.entry.high.now store.now }
{
    for child in children {
        if !child_fits(store, child, entries) {
            return false;
        }
    }
    true
}
