// The slices of a settled tree at a cut, written into free nodes, the deepest first. Everything is told from inside the parent: pivots and cut are
// without what it lifts. A node takes the number of its place in the list of free nodes, its child the next one. Relies on pairs and branches (the page
// of one node), on push (the copy of a node), on node and on octets; specs/Slicing's `left_write` says what is written.

#![tactic(auto)]

mod branches;
pub mod gap;
mod pairs;
pub mod pieces;
mod point;
pub mod right;

ghost use Rattle.std.specs.Prelude.{◌≡◌, ◌+◌, ◌*◌};
ghost use Rattle.image.specs.Image.{tree_at};
ghost use Rattle.slice.specs.Slicing.SliceWrite.{left_write};
ghost use Rattle.slice.specs.Point.{fresh_in};
ghost use Rattle.slice.specs.Left.{LeftAsks};
ghost use Rattle.slice.specs.Right.{has_any};

use node::branches::{Branch, Branches};
use node::entries::Entries;
use node::page::Page;

// The pieces of a right part: whether there is an edge, whose pivot is the cut; and of a rest, if there is one, how many bytes of a buffer its pivot is.
#[derive(Clone, Copy)]
pub struct Parts {
    pub edge: bool,
    pub rest: Option<usize>,
}

impl Parts {
    // Whether there are any.
    #[tactic(auto, unfolding(crate::specs::Right::has_any))]
    fn has_any(self) -> bool
        ensures { result ≡ has_any self }
    {
        self.edge || self.rest.is_some()
    }
}

// Where the part of a tree goes: the level of its root, and the place of its first number in the list of free nodes.
#[derive(Clone, Copy)]
pub struct Slot {
    pub level: usize,
    pub at: usize,
}

// The part of a child's tree before a cut k, which lies strictly inside it.
pub fn slice_left(store: &mut [u8], child: Branch, slot: Slot, k: &[u8], free: &[u16])
    requires { LeftAsks store.old child.number slot.level child.low.now child.high.now k.now slot.at free.now }
    ensures { store.new
        ≡ left_write (fresh_in free.now) (tree_at slot.level store.old child.entry.number) slot.level child.entry.low.now
        child.entry.high.now k.now slot.at store.old }
{
    let Slot { level, at } = slot;
    let lifted = octets::common_length(child.low, child.high);
    let low = &child.low[lifted..];
    let high = &child.high[lifted..];
    let cut = &k[lifted..];
    let mut node = [0; 1024];
    push::copy_node(store, child.number, &mut node);
    let entries = Entries::of_node(&node, 0);
    let new = free[at] as usize;
    let d = octets::common_length(low, cut);
    if level <= 1 {
        pairs::write_pairs(store, new, entries, |own| octets::precedes(own, cut), d);
        return;
    }
    let mut page = Page::new();
    let next = at + 1;
    let children = Branches::among(entries, high);
    let held = branches::emit_left(&mut page, children, cut, d, free[next] as usize);
    if let Some(inner) = held {
        let below = Slot {
            level: level - 1,
            at: next,
        };
        slice_left(store, inner, below, cut, free);
    }
    page.write(store, new, image::INTERIOR, level);
}
