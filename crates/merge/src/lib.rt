// Heal: two neighbouring children of a node that hold no message and fit in one node are joined, the first such two again and again until there are
// none. Everything is told from inside the node: suffixes and pivots are without what the node lifts. Relies on weigh (whether one node holds both),
// emit (the entries written), push's high (the node's high pivot), node and octets; specs/Laws has the laws.

#![tactic(auto)]

pub mod emit;
pub mod weigh;

ghost use Rattle.std.specs.Prelude.{◌≡◌, true, ◌≤◌, length};
ghost use Rattle.image.specs.Image.{whole_nodes};
ghost use Rattle.image.specs.Sound.{sound};
ghost use Rattle.image.specs.Upkeep.{reachable_at, reachable_nodes};
ghost use Rattle.image.specs.Contract.{is_interior};
ghost use Rattle.node.specs.Lent.{left_of};
ghost use Rattle.node.specs.Search.Own.{branches_among};
ghost use Rattle.node.specs.Spans.{pending_of};
ghost use Rattle.node.specs.Whole.{level_at};
ghost use Rattle.lookup.specs.Look.{listing};
ghost use Rattle.merge.specs.Laws.Mended.{Mendable, HealedNode};
ghost use Rattle.merge.specs.Laws.Joined.{pair_fits, left_written, node_without, joined_if, first_joined, any_fits};
ghost use Rattle.merge.specs.Room.{Room};
ghost use Rattle.push.specs.Laws.Written.{child_bytes};

use node::branches::{Branch, Branches};
use node::entries::Entries;
use node::page::Page;

// The left one of two neighbours with the entries of both.
fn write_left(store: &mut [u8], left: Branch, right: Branch)
    requires { pair_fits store.old left.number right.number left.low.now left.high.now right.high.now ≡ true }
    ensures { store.new ≡ left_written store.old left.entry.number right.entry.number left.entry.low.now left.entry.high.now right.entry.high.now }
{
    let at = left.number * image::NODE_SIZE;
    let kind = node::header::read_kind(store, at);
    let level = node::header::read_level(store, at);
    let mut page = Page::new();
    emit::emit_entries(
        &mut page,
        Entries::of_node(store, left.number),
        weigh::left_more(left, right),
    );
    emit::emit_entries(
        &mut page,
        Entries::of_node(store, right.number),
        weigh::right_more(left, right),
    );
    page.write(store, left.number, kind, level);
}

// The node whose children are joined: its number, its level, and the entries of the copy of its page.
#[derive(Clone, Copy)]
struct Parent<'a> {
    num: usize,
    level: usize,
    entries: Entries<'a>,
}

// The node without the entry of one child.
fn write_without(store: &mut [u8], parent: Parent, gone: usize)
    requires { Room store.old parent.num parent.level (left_of parent.entries) }
    ensures { store.new ≡ node_without store.old parent.entry.num parent.entry.level gone (left_of parent.entry.entries) }
{
    let mut page = Page::new();
    emit::emit_others(&mut page, parent.entries, gone);
    page.write(store, parent.num, image::INTERIOR, parent.level);
}

// Two neighbours joined, if one node holds both. Answers whether it does.
fn join_fitting(store: &mut [u8], parent: Parent, left: Branch, right: Branch) -> bool
    requires { Room store.old parent.num parent.level (left_of parent.entries) × (length left.low.now ≤ 2000000) × (length left.high.now ≤ 2000000) }
    ensures { (store.new
        ≡ joined_if parent.entry.num parent.entry.level (left_of parent.entry.entries) left.entry.number right.entry.number left.entry.low.now left.entry.high.now right.entry.high.now
        store.old)
        × (result ≡ pair_fits store.old left.entry.number right.entry.number left.entry.low.now left.entry.high.now right.entry.high.now) }
{
    if !weigh::pair_fits(store, left, right) {
        return false;
    }
    write_left(store, left, right);
    write_without(store, parent, right.number);
    true
}

// The first two neighbours that one node holds, joined. Answers whether there were any.
fn join_first(store: &mut [u8], parent: Parent, children: Branches) -> bool
    requires { Room store.old parent.num parent.level (left_of parent.entries) × (length (child_bytes (pending_of children)) ≤ 1016) }
    ensures { (store.new
        ≡ first_joined parent.entry.num parent.entry.level (left_of parent.entry.entries) (pending_of children.entry) children.entry.high.now
        store.old)
        × (result ≡ any_fits (pending_of children.entry) children.entry.high.now store.old) }
{
    let mut behind = children;
    let Some(first) = behind.next() else {
        return false;
    };
    let mut left = first;
    for right in behind {
        if join_fitting(store, parent, left, right) {
            return true;
        }
        left = right;
    }
    false
}

// One step: the first two neighbouring children of the node that one node holds are joined. Answers whether there were any.
fn mend_once(store: &mut [u8], num: usize, high: &[u8]) -> bool
    requires { Mendable store.old num high.now }
    ensures { (store.new
        ≡ first_joined num (level_at store.old num) (listing store.old num)
        (branches_among (listing store.old num)) high.now store.old)
        × (result ≡ any_fits (branches_among (listing store.old num)) high.now store.old) }
{
    let level = node::header::read_level(store, num * image::NODE_SIZE);
    // The entries are read while the store is written, from a copy of the node.
    let mut node = [0; 1024];
    push::copy_node(store, num, &mut node);
    let entries = Entries::of_node(&node, 0);
    let parent = Parent {
        num,
        level,
        entries,
    };
    join_first(store, parent, Branches::among(entries, high))
}

// Steps until no two neighbouring children of the node fit in one; each step leaves a child less.
fn mend_node(store: &mut [u8], num: usize, high: &[u8])
    requires { Mendable store.old num high.now }
    ensures { HealedNode store.old num store.new }
{
    while mend_once(store, num, high) {}
}

// Heals a reachable interior node. Such a node is found and its pivot is at most 65 bytes, so the first exit is not taken.
pub fn mend_children(store: &mut [u8], num: usize)
    requires { (whole_nodes (length store.old) ≡ true) × (sound store.old ≡ true) × (is_interior (reachable_at num (reachable_nodes store.old)) ≡ true) }
    ensures { HealedNode store.old num store.new }
{
    let mut buffer = [0u8; image::PIVOT_LIMIT];
    let Some(high) = push::high::keep_high(store, num, &mut buffer) else {
        return;
    };
    mend_node(store, num, high);
}
