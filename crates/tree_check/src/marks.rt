// The nodes in use of a store that is known to be sound, marked by a walk that reads interior nodes only: a leaf is marked by its parent's
// entry, and nothing is judged again. The walk tells too whether a message waits anywhere.
// Relies on node (a node's entries) and on laws/Reading (`usable`: what a reader of a sound store may rely on).
ghost use Rattle.std.specs.Prelude.{◌≡◌, true, ◌≤◌, length};
ghost use Rattle.image.specs.Image.{whole_nodes, nodes_of, tree_at};
ghost use Rattle.image.specs.Sound.{sound};
ghost use Rattle.image.specs.Upkeep.{settled};
ghost use Rattle.laws.specs.Reading.Relative.{usable};
ghost use Rattle.tree_check.specs.Whole.{Marks};
ghost use Rattle.tree_check.specs.MarkSteps.{MarksTree};

use node::entries::{Entries, Entry};

// Marks the nodes of the tree under the node `num` of this level. Whether no message waits in any of them: those of a node follow its
// children, so that the first one ends the walk over its entries.
fn mark_tree(store: &[u8], num: usize, level: usize, seen: &mut [u8; 1024]) -> bool
    requires { (nodes_of (length store.now) ≤ 1024) × (usable (nodes_of (length store.now)) (tree_at level store.now num) ≡ true) }
    ensures { MarksTree (tree_at level store.now num) seen.old result seen.new }
{
    seen[num] = 1;
    if level <= 1 {
        return true;
    }
    let mut quiet = true;
    for entry in Entries::of_node(store, num) {
        let Entry::Child(child, _) = entry else {
            return false;
        };
        quiet &= mark_tree(store, child, level - 1, seen);
    }
    quiet
}

// Marks the nodes in use of a sound store: 1 for each node that the tree reaches, 0 for the others. Whether the store is settled.
pub fn mark_nodes(store: &[u8], seen: &mut [u8; 1024]) -> bool
    requires { (whole_nodes (length store.now) ≡ true) × (sound store.now ≡ true) }
    ensures { Marks store.now seen.new × (result ≡ settled store.now) }
{
    *seen = [0; 1024];
    let root = node::header::read_root(store);
    let levels = node::header::read_levels(store);
    mark_tree(store, root, levels, seen)
}
