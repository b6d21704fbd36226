// What a leaf takes: each message that touches it, oldest first, is applied to its pairs, and the pairs that stay are written anew.
// Relies on room, on node's entries and page and on octets; Laws/Leaves says which pairs stay.
ghost use Rattle.std.specs.Prelude.{◌≡◌, true, ◌+◌, ◌≤◌, ◌++◌, List, ℕ, Bool, length};
ghost use Rattle.image.specs.Entry.{message};
ghost use Rattle.laws.specs.Encode.{bytes_of, bytes_of_all};
ghost use Rattle.node.specs.Lent.{message_is, left_of};
ghost use Rattle.node.specs.Whole.{HasRoom};
ghost use Rattle.push.specs.Laws.Leaves.{kept, pairs_after, applied, leaf_takes};
ghost use Rattle.push.specs.Laws.Written.{has_room};
ghost use Rattle.push.specs.Sides.{Tells};

use crate::room;
use node::branches::Branch;
use node::entries::{Entries, Entry, Message};
use node::page::Page;

// The pairs of a leaf whose keys pass a test.
fn emit_pairs<F: Fn(&[u8]) -> bool>(page: &mut Page, leaf: Entries, keeps: F)
    requires { F.IsAlwaysCallable keeps × ((test : List ℕ → Bool) × Tells (F.post keeps) test × (length page.old + length (bytes_of_all (kept test (left_of leaf))) ≤ 1016)) }
    ensures { (test : List ℕ → Bool) → Tells (F.post keeps) test → page.new ≡ page.old ++ bytes_of_all (kept test (left_of leaf.entry)) }
{
    for entry in leaf {
        if let Entry::Pair(key, _) = entry {
            if keeps(key) {
                page.push(entry);
            }
        }
    }
}

// The pairs of a leaf after a message: a put's own pair stands between those before its key and those after it.
fn emit_leaf(page: &mut Page, leaf: Entries, given: Message)
    requires { length page.old + length (bytes_of_all (pairs_after (message_is given) (left_of leaf))) ≤ 1016 }
    ensures { page.new ≡ page.old ++ bytes_of_all (pairs_after (message_is given.entry) (left_of leaf.entry)) }
{
    match given {
        Message::Put(key, value) => {
            emit_pairs(page, leaf, |own| octets::precedes(own, key));
            page.push(Entry::Pair(key, value));
            emit_pairs(page, leaf, |own| octets::precedes(key, own));
        }
        Message::Drop(key) => emit_pairs(page, leaf, |own| !octets::equal(key, own)),
        Message::Clear(key) => emit_pairs(page, leaf, |own| !octets::begins_with(key, own)),
    }
}

// A leaf applies a message.
fn apply_message(store: &mut [u8], num: usize, given: Message)
    requires { HasRoom store.old num (length (bytes_of (message (message_is given)))) }
    ensures { store.new ≡ applied (message_is given.entry) num store.old }
{
    let mut page = Page::new();
    emit_leaf(&mut page, Entries::of_node(store, num), given);
    page.write(store, num, image::LEAF, 1);
}

// A leaf takes what the entries of the node bring.
pub fn push_leaf(store: &mut [u8], child: Branch, entries: Entries)
    requires { has_room (left_of entries) child.number child.low.now child.high.now store.old ≡ true }
    ensures { store.new ≡ leaf_takes (left_of entries.entry) child.entry.number child.entry.low.now child.entry.high.now store.old }
{
    for entry in entries {
        if let Some(given) = room::brought(entry, child) {
            apply_message(store, child.number, given);
        }
    }
}
