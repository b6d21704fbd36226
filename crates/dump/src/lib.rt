// Every row of a sound store's map, rising, in the work area, by one walk: a leaf's pairs are appended, and a node's waiting puts merged into its
// children's rows. Only what decides a path is written, so there are never more rows than live paths. Where the root's messages are all puts they go
// into the rows as they are. Relies on live_count (tests, notes), node, packed (one row), insertion and replacing; the caller has checked the store.

#![tactic(auto)]

pub mod insertion;
pub mod replacing;

ghost use Rattle.std.specs.Prelude.{◌≡◌, true, ◌∷◌, [], ◌++◌, ◌*◌, ◌-◌, ◌≤◌, length};
ghost use Rattle.image.specs.Bytes.{u16};
ghost use Rattle.image.specs.Path.{value_fits};
ghost use Rattle.image.specs.Table.{under_prefix};
ghost use Rattle.image.specs.Image.{tree_at, nodes_of, forest_of};
ghost use Rattle.image.specs.Meaning.{rows, rows_in};
ghost use Rattle.image.specs.Sound.{sound};
ghost use Rattle.laws.specs.Filter.{keep};
ghost use Rattle.node.specs.Lent.{left_of};
ghost use Rattle.node.specs.Spans.{pending_of};
ghost use Rattle.lookup.specs.Look.{listing};
ghost use Rattle.packed.specs.Rows.Area.{rows_of};
ghost use Rattle.live_count.specs.Noted.{AtRoot, Tells, LeafTold, KeyTold, SoundNode, SoundBranches};
ghost use Rattle.live_count.specs.Walk.{passing, LiftsWithin, Ready, ReadyBranches};
ghost use Rattle.dump.specs.Replacing.{only_puts};
ghost use Rattle.dump.specs.Dump.{row_under, pairs_among, values_fit_among, insert_among, Room, Added, Open, Placed, Dumped};

use live_count::position::Position;
use live_count::trail::Trail;
use live_count::visibility;
use node::branches::{Branch, Branches};
use node::entries::{Entries, Entry};
use node::path_buffer::PathBuffer;
use packed::rows::Row;

// A pair's row after the `m` rows of the area, if no message above says anything of its path.
fn append_pair(area: &mut [u8], m: usize, here: &Position, key: &[u8], value: &[u8]) -> usize
    requires { (value_fits value.now ≡ true)
        × Room area.old m (keep (passing here.now.trail) (row_under here.now.prefix key.now value.now ∷ []))
        × KeyTold here.now key.now }
    ensures { Added m area.old area.new result (keep (passing here.now.trail) (row_under here.now.prefix key.now value.now ∷ [])) }
{
    if !here.shows(key) {
        return m;
    }
    packed::put_joined(area, m, here.prefix.as_slice(), key, value);
    m + 1
}

// The pairs of a leaf, each as a row if no message above says anything of its path.
#[inline(never)] // its buffers would lie in the frame of every level of the walk
fn append_pairs(area: &mut [u8], first: usize, entries: Entries, here: &Position) -> usize
    requires { (values_fit_among (left_of entries) ≡ true)
        × Room area.old first (keep (passing here.now.trail) (under_prefix here.now.prefix (pairs_among (left_of entries))))
        × LeafTold here.now (left_of entries) }
    ensures { Added first area.old area.new result
        (keep (passing here.now.trail) (under_prefix here.now.prefix (pairs_among (left_of entries.entry)))) }
{
    let mut m = first;
    for entry in entries {
        let Entry::Pair(key, value) = entry else {
            return m;
        };
        m = append_pair(area, m, here, key, value);
    }
    m
}

// The puts among entries, each as a row at its place among the rows from `first` on if no later entry of its node and no message above says anything
// of its path. There is no such row yet.
#[inline(never)] // its buffers would lie in the frame of every level of the walk
fn insert_puts(
    area: &mut [u8],
    first: usize,
    entries: Entries,
    prefix: &PathBuffer,
    trail: &Trail,
) -> usize
    requires { LiftsWithin (length prefix.now) trail.now
        × Open area.old first first (passing trail.now) prefix.now (left_of entries) }
    ensures { Placed first area.old area.new result
        (insert_among (passing trail.now) prefix.now (left_of entries.entry) (rows_of (first - first) area.old first)) }
{
    let mut later = entries;
    let mut m = first;
    while let Some(entry) = later.next() {
        let Some((key, value)) = visibility::put_of(entry) else {
            continue;
        };
        if !visibility::none_covers(later, key) {
            continue;
        }
        let Some(full) = prefix.followed_by(key) else {
            continue;
        };
        let path = full.as_slice();
        if !trail.is_visible(path) {
            continue;
        }
        insertion::insert_row(area, first, m, Row { path, value });
        m += 1;
    }
    m
}

// The rows under a node whose paths pass the trail, after the `m` rows of the area. The pivots lack what the parent lifts, which is the prefix
// above; a lifted prefix that is too long for any path leaves no row. `here` is where the walk stands at the node's children then.
#[cycle(dump_children_dump_node)]
fn dump_node<'a>(
    store: &'a [u8],
    area: &mut [u8],
    m: usize,
    level: usize,
    node: Branch<'a>,
    above: &Position<'a>,
    here: &mut Position<'a>,
) -> usize
    requires { Ready store.now level node.number above.now.trail
        × SoundNode store.now level node.number above.now.prefix node.low.now node.high.now
        × Room area.old m
        (keep (passing above.now.trail)
        (rows (tree_at level store.now node.number) (above.now.prefix ++ node.low.now) (above.now.prefix ++ node.high.now)))
        × Tells above.now node.low.now node.high.now }
    ensures { Added m area.old area.new result
        (keep (passing above.now.trail)
        (rows (tree_at level store.now node.entry.number) (above.now.prefix ++ node.entry.low.now)
        (above.now.prefix ++ node.entry.high.now))) }
{
    // Named for the borrow checker, which takes a Position apart.
    let _trail = &above.trail;
    let _notes = &above.notes;
    let Some(lifted) = here.arrive(above, node.low, node.high) else {
        return m;
    };
    let entries = Entries::of_node(store, node.number);
    if level <= 1 {
        return append_pairs(area, m, entries, here);
    }
    let high = &node.high[lifted..];
    here.enter(entries, &node.low[lifted..], high);
    let r = dump_children(
        store,
        area,
        m,
        level - 1,
        Branches::among(entries, high),
        here,
    );
    let all = insert_puts(area, r, entries, &here.prefix, &above.trail);
    insertion::merge_rows(area, m, r, all);
    all
}

// The same for the children of a node.
#[cycle(dump_children_dump_node)]
fn dump_children<'a>(
    store: &'a [u8],
    area: &mut [u8],
    first: usize,
    level: usize,
    children: Branches<'a>,
    here: &Position<'a>,
) -> usize
    requires { ReadyBranches store.now level (pending_of children) here.now.trail
        × Room area.old first
        (keep (passing here.now.trail)
        (rows_in (forest_of (λ j. tree_at level store.now j) (pending_of children)) here.now.prefix
        (here.now.prefix ++ children.high.now)))
        × SoundBranches store.now level (pending_of children) children.high.now here.now }
    ensures { Added first area.old area.new result
        (keep (passing here.now.trail)
        (rows_in (forest_of (λ j. tree_at level store.now j) (pending_of children.entry)) here.now.prefix
        (here.now.prefix ++ children.entry.high.now))) }
{
    let mut below = here.empty_like();
    let mut m = first;
    for child in children {
        m = dump_node(store, area, m, level, child, here, &mut below);
    }
    m
}

// The rows of the whole map, where the root's messages are all puts: its children's rows, and its puts put into them, oldest first. So no
// message of the root is held against the pairs below it, nor against the later ones.
fn dump_putting<'a>(
    store: &'a [u8],
    area: &mut [u8],
    level: usize,
    root: usize,
    above: &Position<'a>,
) -> usize
    requires { (root ≡ u16 store.now 6)
        × (level ≡ u16 store.now 8)
        × (sound store.now ≡ true)
        × (128 * nodes_of (length store.now) ≤ length area.old)
        × (2 ≤ level)
        × (only_puts (listing store.now root) ≡ true)
        × AtRoot above.now }
    ensures { Dumped store.now area.old area.new result }
{
    let entries = Entries::of_node(store, root);
    let m = dump_children(
        store,
        area,
        0,
        level - 1,
        Branches::among(entries, &[255]),
        above,
    );
    let all = replacing::set_puts(area, m, entries);
    insertion::merge_rows(area, 0, m, all);
    all
}

// Every row of the map, rising, in the area. Gives how many.
pub fn dump(store: &[u8], area: &mut [u8]) -> usize
    requires { (sound store.now ≡ true) × (128 * nodes_of (length store.now) ≤ length area.old) }
    ensures { Dumped store.now area.old area.new result }
{
    let number = node::header::read_root(store);
    let level = node::header::read_levels(store);
    let above = Position::new();
    // Named for the borrow checker, which takes a Position apart.
    let _trail = &above.trail;
    let _notes = &above.notes;
    if 1 < level {
        if replacing::only_puts(Entries::of_node(store, number)) {
            return dump_putting(store, area, level, number, &above);
        }
    }
    let root = Branch {
        number,
        low: &[],
        high: &[255],
    };
    let mut here = above.empty_like();
    dump_node(store, area, 0, level, root, &above, &mut here)
}
