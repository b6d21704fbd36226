// A flush by one level: all messages of an interior node go, oldest first, to the children that they touch, if all these have room. Everything is
// told from inside the node: suffixes and pivots are without what the node lifts. Relies on high, room (whether the children have room), message and
// leaf (what an interior child and a leaf take), node and octets; specs/Laws has the laws.

#![tactic(auto)]

pub mod high;
mod leaf;
mod message;
pub mod room;

ghost use Rattle.std.specs.Prelude.{◌≡◌, true, ◌+◌, ◌*◌, ◌<◌, ◌≤◌, length};
ghost use Rattle.image.specs.Sound.{once, sound};
ghost use Rattle.node.specs.Cut.{cut};
ghost use Rattle.node.specs.Lent.{left_of};
ghost use Rattle.node.specs.Spans.{pending_of};
ghost use Rattle.push.specs.Laws.Written.{child_takes, each_takes, has_room, all_have_room, branch_numbers, child_bytes, small_numbers, emptied};
ghost use Rattle.push.specs.Outcome.{Pushable, Outcome};
ghost use Rattle.image.specs.Image.{whole_nodes};
ghost use Rattle.image.specs.Upkeep.{reachable_at, reachable_nodes};
ghost use Rattle.image.specs.Contract.{is_interior};
ghost use Rattle.node.specs.Whole.{HasNode};

use node::branches::{Branch, Branches};
use node::entries::{Entries, Entry};
use node::page::Page;

// A child takes what the entries of the node bring: a leaf is of kind 1.
fn push_child(store: &mut [u8], child: Branch, entries: Entries)
    requires { has_room (left_of entries) child.number child.low.now child.high.now store.old ≡ true }
    ensures { store.new ≡ child_takes (left_of entries.entry) child.entry.number child.entry.low.now child.entry.high.now store.old }
{
    let kind = node::header::read_kind(store, child.number * image::NODE_SIZE);
    if kind == image::LEAF {
        leaf::push_leaf(store, child, entries);
    } else {
        message::push_interior(store, child, entries);
    }
}

// Each child in turn does.
fn push_children(store: &mut [u8], children: Branches, entries: Entries)
    requires { (all_have_room (left_of entries) (pending_of children) children.high.now store.old ≡ true)
        × (once (branch_numbers (pending_of children)) ≡ true) }
    ensures { store.new ≡ each_takes (child_takes (left_of entries.entry)) (pending_of children.entry) children.entry.high.now store.old }
{
    for child in children {
        push_child(store, child, entries);
    }
}

// The node with its children alone.
fn clear_messages(store: &mut [u8], num: usize, children: Branches, level: usize)
    requires { HasNode store.old num
        × (level < 65536)
        × (length (child_bytes (pending_of children)) ≤ 1016)
        × (small_numbers (pending_of children) ≡ true) }
    ensures { store.new ≡ emptied store.old num level (pending_of children.entry) }
{
    let mut page = Page::new();
    for child in children {
        page.push(Entry::Child(child.number, child.low));
    }
    page.write(store, num, image::INTERIOR, level);
}

// A node of the store, copied.
pub fn copy_node(store: &[u8], num: usize, node: &mut [u8; 1024])
    requires { HasNode store.now num }
    ensures { node.new ≡ cut store.now (num * 1024) (num * 1024 + 1024) }
{
    let at = num * image::NODE_SIZE;
    node.copy_from_slice(&store[at..at + image::NODE_SIZE]);
}

// The flush of a node whose high pivot, without what the node lifts, is high. The test that all fits comes before the first write.
fn push_node(store: &mut [u8], num: usize, high: &[u8]) -> bool
    requires { Pushable store.old num high.now }
    ensures { Outcome store.old num result store.new }
{
    let level = node::header::read_level(store, num * image::NODE_SIZE);
    // The entries are read while the children are written, from a copy of the node.
    let mut node = [0; 1024];
    copy_node(store, num, &mut node);
    let entries = Entries::of_node(&node, 0);
    let children = Branches::among(entries, high);
    if !node::search::has_messages(entries) {
        return true;
    }
    if !room::all_fit(store, children, entries) {
        return false;
    }
    push_children(store, children, entries);
    clear_messages(store, num, children, level);
    true
}

// All messages of a reachable interior node to its children, if these have room: else nothing is changed, and the answer is false. A reachable
// node is found and its pivot is at most 65 bytes, so the first exit is not taken; the answer that nothing is changed is right there without a
// proof of that.
pub fn push_down(store: &mut [u8], num: usize) -> bool
    requires { (whole_nodes (length store.old) ≡ true) × (sound store.old ≡ true) × (is_interior (reachable_at num (reachable_nodes store.old)) ≡ true) }
    ensures { Outcome store.old num result store.new }
{
    let mut buffer = [0u8; image::PIVOT_LIMIT];
    let Some(high) = high::keep_high(store, num, &mut buffer) else {
        return false;
    };
    push_node(store, num, high)
}
