// The walk over the paths that the entries of a store name: pairs and puts, from a node down. What is done at a path is the visitor's, who also
// may pass over a child. Relies on node (entries, children, the buffer of a path) and octets; the caller knows that the store is sound.
ghost use Rattle.std.specs.Prelude.{◌≡◌, true, [], ◌∷◌, ◌++◌, List, ℕ};
ghost use Rattle.image.specs.Image.{tree_at, tree_of};
ghost use Rattle.image.specs.Sound.{sound, highest};
ghost use Rattle.laws.specs.Reading.Seek.{every, holds};
ghost use Rattle.laws.specs.Reading.SeekHere.{under, keys_here};
ghost use Rattle.node.specs.Lent.{entry_is, left_of, path_is, path_of};
ghost use Rattle.successor.specs.Walk.{paths_of, NodeReady};

use node::branches::Branches;
use node::entries::{Entries, Entry, Message};
use node::path_buffer::PathBuffer;

pub trait Visitor {
    // That the second state is what the paths make of the first, in their order.
    ghost walks: { Self → List (List ℕ) → Self → Type 0 };

    // The path pre ++ s.
    fn visit(&mut self, pre: &[u8], s: &[u8])
        ensures { walks self.old ((pre.now ++ s.now) ∷ []) self.new };

    // Whether the paths of a child, whose pivots are pre ++ low and pre ++ high, may be left out.
    fn passes_over(&self, pre: &[u8], low: &[u8], high: &[u8]) -> bool
        ensures { result ≡ true → (ks : List (List ℕ)) → every (holds (pre.now ++ low.now) (pre.now ++ high.now)) ks ≡ true → walks self.now ks self.now };

    ghost nothing: { (v : Self) → walks v [] v };

    ghost both: { (v w x : Self) (a b : List (List ℕ)) → walks v a w → walks w b x → walks v (a ++ b) x };
}

// The suffix of a pair or of a put: an entry that may hold a value for it.
#[tactic(auto, unfolding(node::specs::Lent::path_of))]
pub fn path_of(entry: Entry) -> Option<&[u8]>
    ensures { path_is result ≡ path_of (entry_is entry.entry) }
{
    match entry {
        Entry::Pair(key, _) => Some(key),
        Entry::Child(_, _) => None,
        Entry::Message(Message::Put(key, _)) => Some(key),
        Entry::Message(Message::Drop(_)) => None,
        Entry::Message(Message::Clear(_)) => None,
    }
}

// The pairs and puts among these entries.
fn walk_entries<V: Visitor>(visitor: &mut V, entries: Entries, pre: &[u8])
    ensures { V.walks visitor.old (under pre.now (paths_of (left_of entries.entry))) visitor.new }
{
    for entry in entries {
        let Some(path) = path_of(entry) else {
            continue;
        };
        visitor.visit(pre, path);
    }
}

// The node num, which lifts pre; hi is its high pivot without pre. A child whose lifted bytes are too long for any path has none.
fn walk_node<V: Visitor>(
    visitor: &mut V,
    store: &[u8],
    num: usize,
    level: usize,
    pre: &[u8],
    hi: &[u8],
)
    requires { NodeReady store.now pre.now hi.now level num }
    ensures { V.walks visitor.old (under pre.now (keys_here (tree_at level store.now num) hi.now)) visitor.new }
{
    let entries = Entries::of_node(store, num);
    if level <= 1 {
        walk_entries(visitor, entries, pre);
        return;
    }
    for child in Branches::among(entries, hi) {
        if visitor.passes_over(pre, child.low, child.high) {
            continue;
        }
        let k = octets::common_length(child.low, child.high);
        let Some(lifted) = PathBuffer::join(pre, &child.low[..k]) else {
            continue;
        };
        walk_node(
            visitor,
            store,
            child.number,
            level - 1,
            lifted.as_slice(),
            &child.high[k..],
        );
    }
    walk_entries(visitor, entries, pre); // the puts: a child names no path
}

// All of a sound store.
pub fn walk_store<V: Visitor>(visitor: &mut V, store: &[u8])
    requires { sound store.now ≡ true }
    ensures { V.walks visitor.old (under [] (keys_here (tree_of store.now) highest)) visitor.new }
{
    let root = node::header::read_root(store);
    let levels = node::header::read_levels(store);
    let hi = [255u8; 1];
    walk_node(visitor, store, root, levels, &[], &hi);
}
