// The number of paths present in an image that may have waiting messages, counted in one walk over its nodes: each entry that decides its path counts
// once. Relies on position (where a walk stands), on the readers of nodes (node) and on octets; specs/Live says what is counted, specs/Walk what is
// asked of a node.

#![tactic(auto)]

pub mod notes;
pub mod position;
pub mod trail;
pub mod visibility;

ghost use Rattle.std.specs.Prelude.{◌≡◌, ◌++◌, ◌+◌, ◌*◌, ◌<◌, ◌≤◌, length, drop};
ghost use Rattle.image.specs.Bytes.{shared};
ghost use Rattle.image.specs.Image.{tree_at, forest_of};
ghost use Rattle.image.specs.Sound.{table_of};
ghost use Rattle.octets.specs.Cap.{cap};
ghost use Rattle.laws.specs.Reading.Relative.{lifts};
ghost use Rattle.node.specs.Lent.{left_of};
ghost use Rattle.node.specs.Spans.{pending_of};
ghost use Rattle.live_count.specs.Noted.{Tells, LeafTold, SoundNode, SoundBranches};
ghost use Rattle.live_count.specs.Live.{live_here, live_branches};
ghost use Rattle.live_count.specs.Walk.{passing, count_among, Ready, ReadyBranches, Countable};

use node::branches::{Branch, Branches};
use node::entries::{Entries, Entry};
use position::Position;

// How many of these entries of a node decide their paths.
pub fn count_entries(entries: Entries, here: &Position) -> usize
    ensures { (result ≡ count_among (passing here.now.trail) here.now.prefix (left_of entries.entry)) × (result ≤ length (left_of entries.entry)) }
{
    let mut later = entries;
    let mut count = 0;
    while let Some(entry) = later.next() {
        if here.decides(entry, later) {
            count += 1;
        }
    }
    count
}

// How many pairs of a leaf no node of the trail has a message on: each is held against the notes alone, and where these tell nothing, against all that
// the trail has.
pub fn count_leaf(entries: Entries, here: &Position) -> usize
    requires { LeafTold here.now (left_of entries) }
    ensures { (result ≡ count_among (passing here.now.trail) here.now.prefix (left_of entries.entry)) × (result ≤ length (left_of entries.entry)) }
{
    let mut count = 0;
    for entry in entries {
        if let Entry::Pair(key, _) = entry {
            if here.shows(key) {
                count += 1;
            }
        }
    }
    count
}

// How many entries under a node decide a path that passes the trail. The pivots lack what the parent lifts, which is the prefix above; `here` is
// where the walk stands at the node then.
#[cycle(count_children_count_node)]
pub fn count_node<'a>(
    store: &'a [u8],
    level: usize,
    node: Branch<'a>,
    above: &Position<'a>,
    here: &mut Position<'a>,
) -> usize
    requires { Ready store.now level node.number above.now.trail
        × SoundNode store.now level node.number above.now.prefix node.low.now node.high.now
        × Tells above.now node.low.now node.high.now }
    ensures { (result
        ≡ cap
        (live_here (tree_at level store.now node.entry.number) (passing above.now.trail)
        (above.now.prefix ++ shared node.entry.low.now node.entry.high.now)
        (drop (lifts node.entry.low.now node.entry.high.now) node.entry.high.now)))
        × (result ≤ 65535) }
{
    // Named for the borrow checker, which takes a Position apart.
    let _trail = &above.trail;
    let _notes = &above.notes;
    let Some(lifted) = here.arrive(above, node.low, node.high) else {
        return 0;
    };
    let entries = Entries::of_node(store, node.number);
    if level <= 1 {
        return count_leaf(entries, here);
    }
    let own = count_entries(entries, here);
    let high = &node.high[lifted..];
    here.enter(entries, &node.low[lifted..], high);
    let under = count_children(store, level - 1, Branches::among(entries, high), here);
    octets::capped_sum(own, under)
}

// The same for the children of a node.
#[cycle(count_children_count_node)]
pub fn count_children<'a>(
    store: &'a [u8],
    level: usize,
    children: Branches<'a>,
    here: &Position<'a>,
) -> usize
    requires { ReadyBranches store.now level (pending_of children) here.now.trail
        × SoundBranches store.now level (pending_of children) children.high.now here.now }
    ensures { (result
        ≡ cap
        (live_branches (forest_of (λ j. tree_at level store.now j) (pending_of children.entry))
        (passing here.now.trail) here.now.prefix children.entry.high.now))
        × (result ≤ 65535) }
{
    let mut below = here.empty_like();
    let mut total = 0;
    for child in children {
        let count = count_node(store, level, child, here, &mut below);
        total = octets::capped_sum(total, count);
    }
    total
}

// The number of paths present in an image that is sound but for its live count; more than 65,535 is reported as 65,535.
pub fn count_paths(store: &[u8]) -> usize
    requires { Countable store.now }
    ensures { result ≡ cap (length (table_of store.now)) }
{
    let root = Branch {
        number: node::header::read_root(store),
        low: &[],
        high: &[255],
    };
    let levels = node::header::read_levels(store);
    let above = Position::new();
    // Named for the borrow checker, which takes a Position apart.
    let _trail = &above.trail;
    let _notes = &above.notes;
    let mut here = above.empty_like();
    count_node(store, levels, root, &above, &mut here)
}
