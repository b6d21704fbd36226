// Question 2 but for the live count: one marking walk over the tree, in which the check of a node and that of its children call each other. It reads
// any store of at least one node, and counts pairs and messages. Relies on header and node_check for what one node holds, node (its entries), path
// and octets.

#![tactic(auto)]

pub mod header;
pub mod marks;
pub mod node_check;

ghost use Rattle.std.specs.Prelude.{◌≡◌, cond, List, ℕ, ◌≤◌, length, MatchOption};
ghost use Rattle.image.specs.Prelude.{none, some};
ghost use Rattle.image.specs.Entry.{entries_of};
ghost use Rattle.image.specs.Image.{nodes_of, tree_at};
ghost use Rattle.laws.specs.Reading.SoundHere.{sound_here};
ghost use Rattle.laws.specs.Reading.Visit.{visit};
ghost use Rattle.node.specs.Entries.{list_of};
ghost use Rattle.path.specs.Fed.{shape_is};
ghost use Rattle.tree_check.specs.Node.Inside.{messages_run, child_run, branches_run};
ghost use Rattle.tree_check.specs.Count.{plus, tally_sum, count_of, only_messages, only_node, branches_count};
ghost use Rattle.tree_check.specs.Answer.{Checks};
ghost use Rattle.tree_check.specs.Walk.{node_run};
ghost use Rattle.tree_check.specs.First.{Childless, Begins, NoFirst, FirstOf};
ghost use Rattle.node.specs.Whole.{HasNode};
ghost use Rattle.tree_check.specs.Whole.{Verified};

use node::entries::{Entries, Entry, read_entry};
use path::Shape;

// What a sound tree holds, each number shown up to 65,535.
#[derive(Clone, Copy)]
pub struct Tally {
    pub pairs: usize,
    pub messages: usize,
    pub nodes: usize,
}

impl Tally {
    // What two parts of a tree hold.
    pub fn joined(self, more: Tally) -> Tally
        ensures { result ≡ tally_sum self more }
    {
        Tally {
            pairs: octets::capped_sum(self.pairs, more.pairs),
            messages: octets::capped_sum(self.messages, more.messages),
            nodes: octets::capped_sum(self.nodes, more.nodes),
        }
    }
}

// Whether a node of the store is a sound leaf, and how many pairs it holds.
pub fn check_leaf(store: &[u8], num: usize, lo: &[u8], hi: &[u8], sh: Shape) -> Option<Tally>
    requires { HasNode store.now num }
    ensures { (seen : List ℕ) → Checks
        (cond (sound_here (tree_at 1 store.now num) (shape_is sh) lo.now hi.now) (some seen) none)
        (count_of (tree_at 1 store.now num)) result seen }
{
    if !header::laid_out(store, num, 1, 1) {
        return None;
    }
    let entries = Entries::of_node(store, num);
    let pairs = node_check::check_leaf(entries.rest, lo, hi, sh)?;
    Some(Tally {
        pairs,
        messages: 0,
        nodes: 1,
    })
}

// The child that bytes begin with: its number, its pivot, and the bytes behind it.
pub fn read_child(bytes: &[u8]) -> Option<(usize, &[u8], &[u8])>
    ensures { MatchOption result (Childless bytes.now) (λ p. Begins bytes.now p.0 p.1.now p.2.now) }
{
    let (entry, behind) = read_entry(bytes)?;
    let Entry::Child(child, pivot) = entry else {
        return None;
    };
    Some((child, pivot, behind))
}

// The first child of an interior node of the store, if its pivot is the node's low one, and the entries behind it.
pub fn first_child<'a>(
    store: &'a [u8],
    num: usize,
    level: usize,
    lo: &[u8],
) -> Option<(usize, &'a [u8])>
    requires { HasNode store.now num }
    ensures { MatchOption result (NoFirst store.now num level lo.now) (λ p. FirstOf store.now num level lo.now p.0 p.1.now) }
{
    if !header::laid_out(store, num, 2, level) {
        return None;
    }
    let entries = Entries::of_node(store, num);
    let (child, pivot, behind) = read_child(entries.rest)?;
    if !octets::equal(pivot, lo) {
        return None;
    }
    Some((child, behind))
}

// Whether bytes are sound messages, and how many.
pub fn check_messages(entries: &[u8], lo: &[u8], hi: &[u8], sh: Shape) -> Option<Tally>
    ensures { (seen : List ℕ) → Checks
        (cond (messages_run (shape_is sh) lo.now hi.now (entries_of entries.now)) (some seen) none)
        (only_messages (length (list_of entries.now))) result seen }
{
    let messages = node_check::check_messages(entries, lo, hi, sh)?;
    Some(Tally {
        pairs: 0,
        messages,
        nodes: 0,
    })
}

// What the children of a node share: their level, the node's own pivots, and the shape of what it lifts.
#[derive(Clone, Copy)]
pub struct Parent<'a> {
    pub level: usize,
    pub low: &'a [u8],
    pub high: &'a [u8],
    pub shape: Shape,
}

// The tree under the node `num`, which is to be of this level. Its pivots are without what it lifts, of which the shape tells.
#[cycle(check_node_check_children_check_child)]
pub fn check_node(
    store: &[u8],
    num: usize,
    level: usize,
    lo: &[u8],
    hi: &[u8],
    sh: Shape,
    seen: &mut [u8; 1024],
) -> Option<Tally>
    requires { nodes_of (length store.now) ≤ 1024 }
    ensures { Checks
        (visit (tree_at level store.now num) (nodes_of (length store.now)) (shape_is sh) lo.now hi.now
        seen.old) (count_of (tree_at level store.now num)) result seen.new }
{
    if num < 1 {
        return None;
    }
    if header::node_count(store) <= num {
        return None;
    }
    if level < 1 {
        return None;
    }
    if seen[num] != 0 {
        return None;
    }
    seen[num] = 1;
    if level == 1 {
        return check_leaf(store, num, lo, hi, sh);
    }
    let (first, behind) = first_child(store, num, level, lo)?;
    let parent = Parent {
        level: level - 1,
        low: lo,
        high: hi,
        shape: sh,
    };
    check_children(store, first, behind, parent, seen)
}

// The children of a node, of which `first` has the node's own low pivot and the others stand in front of its messages, and the messages. (What no
// child begins is left to the check of the messages, where an entry begins it; node's iterator over children has read past it.)
#[cycle(check_node_check_children_check_child)]
pub fn check_children(
    store: &[u8],
    first: usize,
    entries: &[u8],
    parent: Parent,
    seen: &mut [u8; 1024],
) -> Option<Tally>
    requires { nodes_of (length store.now) ≤ 1024 }
    ensures { Checks
        (branches_run (node_run parent.entry.level store.now) (shape_is parent.entry.shape) parent.entry.low.now parent.entry.high.now first
        parent.entry.low.now (entries_of entries.now) seen.old)
        (plus only_node (branches_count (tree_at parent.entry.level store.now) first (list_of entries.now))) result
        seen.new }
{
    let mut child = first;
    let mut low = parent.low;
    let mut rest = entries;
    let mut held = Tally {
        pairs: 0,
        messages: 0,
        nodes: 1,
    };
    while let Some((next, pivot, behind)) = read_child(rest) {
        held = held.joined(check_child(store, child, low, pivot, parent, seen)?);
        child = next;
        low = pivot;
        rest = behind;
    }
    // Where no entry begins what is left, the node is refused before the walk over its last child, which may be long.
    if !rest.is_empty() {
        read_entry(rest)?;
    }
    held = held.joined(check_child(store, child, low, parent.high, parent, seen)?);
    let waiting = check_messages(rest, parent.low, parent.high, parent.shape)?;
    Some(held.joined(waiting))
}

// The child `num` between two pivots of its parent.
#[cycle(check_node_check_children_check_child)]
pub fn check_child(
    store: &[u8],
    num: usize,
    low: &[u8],
    high: &[u8],
    parent: Parent,
    seen: &mut [u8; 1024],
) -> Option<Tally>
    requires { nodes_of (length store.now) ≤ 1024 }
    ensures { Checks
        (child_run (node_run parent.entry.level store.now) (shape_is parent.entry.shape) parent.entry.low.now parent.entry.high.now num
        low.now high.now seen.old) (count_of (tree_at parent.entry.level store.now num)) result seen.new }
{
    if !octets::owned(parent.low, parent.high, low) {
        return None;
    }
    if !octets::precedes(low, high) {
        return None;
    }
    let k = octets::common_length(low, high);
    let deeper = path::feed(parent.shape, &low[..k]);
    check_node(
        store,
        num,
        parent.level,
        &low[k..],
        &high[k..],
        deeper,
        seen,
    )
}

// The check of a store: node 0, and the tree from the root. After a sound answer `seen` has 1 for each node that is reached, and 0 for the others.
pub fn check_tree(store: &[u8], seen: &mut [u8; 1024]) -> Option<Tally>
    requires { (1024 ≤ length store.now) × (nodes_of (length store.now) ≤ 1024) }
    ensures { Verified store.now result seen.new }
{
    if !header::header_good(store) {
        return None;
    }
    *seen = [0; 1024];
    let root = node::header::read_root(store);
    let levels = node::header::read_levels(store);
    check_node(store, root, levels, &[], &[255], path::start(), seen)
}
