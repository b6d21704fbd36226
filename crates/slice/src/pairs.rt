// The part of a leaf on one side of a cut: its pairs whose keys pass a test, each key without its first bytes; specs/Point says which pairs they are.
// Relies on node's entries and page and on push's room (a key without its first bytes).
ghost use Rattle.std.specs.Prelude.{◌≡◌, ◌≤◌, List, ℕ, Bool, length};
ghost use Rattle.laws.specs.WriteNode.{write_node};
ghost use Rattle.laws.specs.Page.{page};
ghost use Rattle.node.specs.Lent.{left_of};
ghost use Rattle.node.specs.Whole.{HasNode};
ghost use Rattle.push.specs.Sides.{Tells};
ghost use Rattle.slice.specs.Point.{side_line};

use node::entries::{Entries, Entry};
use node::page::Page;
use push::room::past;

// A new leaf of the pairs whose keys pass a test.
pub fn write_pairs<F: Fn(&[u8]) -> bool>(
    store: &mut [u8],
    num: usize,
    leaf: Entries,
    keeps: F,
    d: usize,
)
    requires { F.IsAlwaysCallable keeps
        × HasNode store.old num
        × ((test : List ℕ → Bool) × Tells (F.post keeps) test × (length (side_line test d (left_of leaf)) ≤ 1016)) }
    ensures { (test : List ℕ → Bool)
        → Tells (F.post keeps) test
        → store.new ≡ write_node store.old num (page 1 1 (side_line test d (left_of leaf.entry))) }
{
    let mut page = Page::new();
    for entry in leaf {
        if let Entry::Pair(key, value) = entry {
            if keeps(key) {
                page.push(Entry::Pair(past(key, d), value));
            }
        }
    }
    page.write(store, num, image::LEAF, 1);
}
