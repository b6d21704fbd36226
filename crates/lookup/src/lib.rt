// The value of a path, looked up one level at a time: a node's newest message on it decides, else the child that owns it answers for the rest.
// Relies on node's search and on octets; the caller knows that the store is sound.

#![tactic(auto)]

ghost use Rattle.std.specs.Prelude.{◌≡◌, true, length};
ghost use Rattle.image.specs.Image.{tree_at, nodes_of};
ghost use Rattle.image.specs.Sound.{sound, value_in};
ghost use Rattle.laws.specs.Reading.Relative.{usable, from_here};
ghost use Rattle.node.specs.Lent.{value_is};

use node::branches::Branches;
use node::entries::Entries;

// The value that the node `num` of this level has for a rest. Its high pivot and the rest are without what it lifts.
pub fn lookup<'a>(
    store: &'a [u8],
    num: usize,
    level: usize,
    hi: &[u8],
    rest: &[u8],
) -> Option<&'a [u8]>
    requires { usable (nodes_of (length store.now)) (tree_at level store.now num) ≡ true }
    ensures { value_is result ≡ from_here (tree_at level store.now num) hi.now rest.now }
{
    let entries = Entries::of_node(store, num);
    if level <= 1 {
        return node::search::find(entries, rest);
    }
    if let Some(said) = node::search::newest(entries, rest) {
        return said;
    }
    let owner = node::search::owner_of(Branches::among(entries, hi), rest)?;
    let k = octets::common_length(owner.low, owner.high);
    lookup(store, owner.number, level - 1, &owner.high[k..], &rest[k..])
}

// The value of a path in a sound image.
pub fn value_of<'a>(store: &'a [u8], path: &[u8]) -> Option<&'a [u8]>
    requires { sound store.now ≡ true }
    ensures { value_is result ≡ value_in store.now path.now }
{
    let root = node::header::read_root(store);
    let levels = node::header::read_levels(store);
    let hi = [255u8; 1];
    lookup(store, root, levels, &hi, path)
}
