// The part of a tree from a cut on: wide, an edge and a rest a level; narrow, one node a level. Everything is told from inside the parent. Relies on
// pieces, branches and pairs (which write the pages), on point, on push (the copy of a node), on node and on octets; `right_write` of specs/Slicing says
// what is written.
ghost use Rattle.std.specs.Prelude.{◌≡◌, [], ◌++◌, ◌+◌, ◌*◌, ◌<◌, ◌≤◌, length};
ghost use Rattle.image.specs.Bytes.{shared};
ghost use Rattle.image.specs.Image.{tree_at};
ghost use Rattle.laws.specs.Reading.Relative.{branch_high};
ghost use Rattle.node.specs.Spans.{pending_of};
ghost use Rattle.slice.specs.Point.{fresh_in};
ghost use Rattle.slice.specs.Right.{RightAsks, RightAs, WideAsks, NarrowAsks, pieces_in, wide_body, both_told, all_line, over_body, one_node};

use crate::{Parts, Slot, branches, pairs, pieces, point};
use node::branches::{Branch, Branches};
use node::entries::Entries;
use node::page::Page;

// The low pivot of the first child, or their high pivot if there is none.
fn first_pivot<'a>(children: Branches<'a>) -> &'a [u8]
    ensures { result.now ≡ branch_high children.entry.high.now (pending_of children.entry) }
{
    match children.front {
        Some((_, low)) => low,
        None => children.high,
    }
}

// An edge over the pieces and a rest over the children.
fn write_wide(
    store: &mut [u8],
    slot: Slot,
    children: Branches,
    below: Parts,
    k: &[u8],
    out: &[u8],
    free: &[u16],
)
    requires { WideAsks (length store.old) slot.level (pending_of children) children.high.now k.now below out.now slot.at free.now }
    ensures { store.new
        ≡ wide_body (fresh_in free.now slot.at) (fresh_in free.now (slot.at + 1)) slot.level k.now children.entry.high.now
        (branch_high children.entry.high.now (pending_of children.entry))
        (pieces_in (fresh_in free.now (slot.at + 2)) (fresh_in free.now (slot.at + 3)) k.now out.now below)
        (pending_of children.entry) store.old }
{
    let Slot { level, at } = slot;
    let pivot = first_pivot(children);
    let mut edge = Page::new();
    let numbered = pieces::number_pieces(below, free, at + 2);
    let d = octets::common_length(k, pivot);
    pieces::emit_parts(&mut edge, numbered, k, out, d);
    let mut rest = Page::new();
    let e = octets::common_length(pivot, children.high);
    branches::emit_branches(&mut rest, children, e);
    pieces::write_some(&edge, store, free[at] as usize, level);
    pieces::write_some(&rest, store, free[at + 1] as usize, level);
}

// What is told of both: the pivot of the rest, if there is one, is left in the buffer behind what is lifted.
fn tell_both(children: Branches, below: Parts, lift: &[u8], out: &mut [u8]) -> Parts
    requires { (length (all_line 0 (pending_of children)) ≤ 1016) × (length lift.now + 1024 ≤ length out.old) }
    ensures { both_told (pending_of children.entry) below lift.now out.new result }
{
    let edge = below.has_any();
    let Some((_, pivot)) = children.front else {
        return Parts { edge, rest: None };
    };
    let n = lift.len();
    let end = n + pivot.len();
    octets::copy_at(out, 0, lift);
    octets::copy_at(out, n, pivot);
    Parts {
        edge,
        rest: Some(end),
    }
}

// One node over the pieces and the children.
fn write_narrow(
    store: &mut [u8],
    slot: Slot,
    children: Branches,
    below: Parts,
    k: &[u8],
    out: &[u8],
    free: &[u16],
) -> Parts
    requires { NarrowAsks (length store.old) slot.level (pending_of children) children.high.now k.now below out.now slot.at free.now }
    ensures { (store.new
        ≡ over_body (fresh_in free.now slot.at) slot.level
        (all_line (length (shared k.now children.entry.high.now))
        (pieces_in (fresh_in free.now (slot.at + 1)) (fresh_in free.now (slot.at + 2)) k.now out.now below
        ++ pending_of children.entry)) store.old)
        × (result
        ≡ one_node
        (pieces_in (fresh_in free.now (slot.at + 1)) (fresh_in free.now (slot.at + 2)) k.now out.now below ++
        pending_of children.entry)) }
{
    let Slot { level, at } = slot;
    let mut page = Page::new();
    let numbered = pieces::number_pieces(below, free, at + 1);
    let d = octets::common_length(k, children.high);
    pieces::emit_parts(&mut page, numbered, k, out, d);
    branches::emit_branches(&mut page, children, d);
    let edge = pieces::write_some(&page, store, free[at] as usize, level);
    Parts { edge, rest: None }
}

// The part of a child's tree from a cut k on, which lies strictly inside it. Tells its pieces: the pivot of a rest is left in the buffer.
pub fn slice_right(
    store: &mut [u8],
    child: Branch,
    slot: Slot,
    wide: bool,
    k: &[u8],
    free: &[u16],
    out: &mut [u8],
) -> Parts
    requires { RightAsks wide store.old child.number slot.level child.low.now child.high.now k.now slot.at free.now × (length k.now + 1024 ≤ length out.old) }
    ensures { RightAs wide (tree_at slot.level store.old child.entry.number) slot.level child.entry.low.now
        child.entry.high.now k.now slot.at free.now [] store.old store.new out.new result }
{
    let Slot { level, at } = slot;
    let lifted = octets::common_length(child.low, child.high);
    let high = &child.high[lifted..];
    let cut = &k[lifted..];
    let mut node = [0; 1024];
    push::copy_node(store, child.number, &mut node);
    let entries = Entries::of_node(&node, 0);
    if level <= 1 {
        let new = free[at] as usize;
        let d = octets::common_length(cut, high);
        pairs::write_pairs(store, new, entries, |own| !octets::precedes(own, cut), d);
        return Parts {
            edge: true,
            rest: None,
        };
    }
    let (held, rest) = point::split_children(Branches::among(entries, high), cut);
    let inner = Slot {
        level: level - 1,
        at: if wide { at + 2 } else { at + 1 },
    };
    let below = match held {
        Some(inside) => slice_right(store, inside, inner, wide, cut, free, out),
        None => Parts {
            edge: false,
            rest: None,
        },
    };
    if wide {
        write_wide(store, slot, rest, below, cut, out, free);
        return tell_both(rest, below, &k[..lifted], out);
    }
    write_narrow(store, slot, rest, below, cut, out, free)
}
