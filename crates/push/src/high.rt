// The high pivot of an interior node without what the node lifts: only its parent knows it, so it is sought from the root down.
// Relies on the readers of nodes (node), on octets and on `usable` (laws/Reading); Laws/High says what is found.
ghost use Rattle.std.specs.Prelude.{◌≡◌, [], true, length};
ghost use Rattle.image.specs.Image.{tree_at, tree_of, nodes_of};
ghost use Rattle.image.specs.Sound.{sound, highest};
ghost use Rattle.laws.specs.Reading.Relative.{usable};
ghost use Rattle.node.specs.Lent.{value_is};
ghost use Rattle.push.specs.Laws.High.{high_here};
ghost use Rattle.push.specs.High.Sought.{Buffered};

use node::branches::{Branch, Branches};
use node::entries::Entries;

// The high pivot of node `num` in the tree of a child of this level, whose pivots are without what its parent lifts.
fn search_node<'a>(store: &'a [u8], top: Branch<'a>, level: usize, num: usize) -> Option<&'a [u8]>
    requires { usable (nodes_of (length store.now)) (tree_at level store.now top.number) ≡ true }
    ensures { value_is result ≡ high_here num (tree_at level store.now top.entry.number) top.entry.low.now top.entry.high.now }
{
    if level <= 1 {
        return None;
    }
    let high = &top.high[octets::common_length(top.low, top.high)..];
    if top.number == num {
        return Some(high);
    }
    let entries = Entries::of_node(store, top.number);
    for child in Branches::among(entries, high) {
        if let Some(found) = search_node(store, child, level - 1, num) {
            return Some(found);
        }
    }
    None
}

// The high pivot of node `num` of a sound image.
pub fn find_high(store: &[u8], num: usize) -> Option<&[u8]>
    requires { sound store.now ≡ true }
    ensures { value_is result ≡ high_here num (tree_of store.now) [] highest }
{
    let root = Branch {
        number: node::header::read_root(store),
        low: &[],
        high: &[255],
    };
    search_node(store, root, node::header::read_levels(store), num)
}

// The same, in a buffer that the caller lends: it stays as it is while the store is written. None is given of a pivot that is longer than the buffer.
pub fn keep_high<'b>(
    store: &[u8],
    num: usize,
    buffer: &'b mut [u8; image::PIVOT_LIMIT],
) -> Option<&'b [u8]>
    requires { sound store.now ≡ true }
    ensures { Buffered (high_here num (tree_of store.now) [] highest) result }
{
    let high = find_high(store, num)?;
    let kept = buffer.get_mut(..high.len())?;
    kept.copy_from_slice(high);
    Some(kept)
}
