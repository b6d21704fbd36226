// The swing of a move on a settled store: its tree is cut at the ends of two ranges, the largest cut first, each next one on what lies left of the
// last; the pieces go under a new root, those of `from` in the place of `to`; node 0 is written last. Every other node that is written was free.
// Relies on slice (the cuts and the empty chain), root (the new root's page), node (node 0) and octets.

#![tactic(auto)]

mod root;
pub mod spare;

ghost use Rattle.std.specs.Prelude.{◌≡◌, ◌*◌, ◌≤◌, ◌<◌, length};
ghost use Rattle.octets.specs.Put.{put};
ghost use Rattle.slice.specs.Slicing.Range.{past};
ghost use Rattle.swing.specs.Cuts.{RangeAsks, RangeAs, BothAsks, BothAs, OutAsks, out_in, TakeAsks, taken_out, low_place};
ghost use Rattle.swing.specs.Plan.{SwingAsks, Swings, Plan, PastPlan, swung_over};

use node::branches::Branch;
use root::Halves;
use slice::{Parts, Slot};

// The list of free nodes in blocks of h numbers, h the levels, so that no slice has to tell what it took: 0 what lies left of the end of the
// higher range, 1 and 2 what lies right of it, 3 what lies left of the higher path; 4, 5 and 6, 7 the same of the lower range; 8 the range that
// moves, 9 the empty chain; the number after them, 10 h, is the new root's.

// What lies right of the two cut ranges.
#[derive(Clone, Copy)]
pub struct Cuts {
    pub low: Parts,
    pub high: Parts,
}

// The end of the range of a path: the path, then FF.
fn put_past(bound: &mut [u8], path: &[u8])
    requires { length path.now < length bound.old }
    ensures { bound.new ≡ put bound.old 0 (past path.now) }
{
    octets::copy_at(bound, 0, path);
    let n = path.len();
    bound[n] = 255;
}

// Cuts a tree whose high pivot is hi at both ends of a range: writes what lies left of its end, what lies right of it, and what lies left of
// its path. Tells the pieces on the right.
fn cut_range(
    store: &mut [u8],
    num: usize,
    slot: Slot,
    hi: &[u8],
    bound: &[u8],
    free: &[u16],
    out: &mut [u8],
) -> Parts
    requires { RangeAsks store.old num slot.level hi.now bound.now slot.at free.now × (length out.old ≡ 1089) }
    ensures { RangeAs store.old num slot.level hi.now bound.now slot.at free.now store.new out.new result }
{
    let Slot { level, at } = slot;
    let inner = free[at] as usize;
    let n = bound.len() - 1;
    let whole = Branch {
        number: num,
        low: &[],
        high: hi,
    };
    slice::slice_left(store, whole, slot, bound, free);
    let right = Slot {
        level,
        at: at + level,
    };
    let parts = slice::right::slice_right(store, whole, right, true, bound, free, out);
    let range = Branch {
        number: inner,
        low: &[],
        high: bound,
    };
    let left = Slot {
        level,
        at: at + 3 * level,
    };
    slice::slice_left(store, range, left, &bound[0..n], free);
    parts
}

// Cuts the tree of the store at both ranges, the higher one first.
fn cut_both(
    store: &mut [u8],
    h: usize,
    bound: &[u8],
    limit: &[u8],
    free: &[u16],
    low: &mut [u8],
    high: &mut [u8],
) -> Cuts
    requires { BothAsks store.old h bound.now limit.now free.now × (length low.old ≡ 1089) × (length high.old ≡ 1089) }
    ensures { BothAs store.old h bound.now limit.now free.now store.new low.new high.new result }
{
    let root = node::header::read_root(store);
    let inner = free[3 * h] as usize;
    let n = limit.len() - 1;
    let top = [255u8; 1];
    let right = cut_range(
        store,
        root,
        Slot { level: h, at: 0 },
        &top,
        limit,
        free,
        high,
    );
    let next = 4 * h;
    let left = cut_range(
        store,
        inner,
        Slot { level: h, at: next },
        &limit[0..n],
        bound,
        free,
        low,
    );
    Cuts {
        low: left,
        high: right,
    }
}

// A range as one tree, and an empty chain for the place that it leaves.
fn take_out(store: &mut [u8], num: usize, h: usize, bound: &[u8], free: &[u16])
    requires { OutAsks store.old num h bound.now free.now }
    ensures { store.new ≡ out_in store.old num h bound.now free.now }
{
    let n = bound.len() - 1;
    let mut out = [0u8; 1089];
    let range = Branch {
        number: num,
        low: &[],
        high: bound,
    };
    let tail = Slot {
        level: h,
        at: 8 * h,
    };
    slice::right::slice_right(store, range, tail, false, &bound[0..n], free, &mut out);
    slice::gap::write_gap(store, h, &bound[0..n], bound, 9 * h, free);
}

// Takes out the range that moves: the lower one where the move goes up.
fn take_range(store: &mut [u8], h: usize, bound: &[u8], limit: &[u8], free: &[u16], up: bool)
    requires { TakeAsks store.old h bound.now limit.now free.now up }
    ensures { store.new ≡ taken_out store.old h bound.now limit.now free.now up }
{
    if up {
        let lower = free[4 * h] as usize;
        take_out(store, lower, h, bound, free);
        return;
    }
    let higher = free[0] as usize;
    take_out(store, higher, h, limit, free);
}

// Where the number of the node under the lower path stands in the list of free nodes.
fn low_place(h: usize, up: bool) -> usize
    requires { h ≤ 8 }
    ensures { (result ≡ low_place h up) × (8 * h ≤ result) × (result ≤ 9 * h) }
{
    if up {
        return 9 * h;
    }
    8 * h
}

// The swing, told by the ends of the two ranges.
fn swing_between(store: &mut [u8], free: &[u16], bound: &[u8], limit: &[u8], up: bool)
    requires { PastPlan store.old free.now bound.now limit.now up }
    ensures { store.new ≡ swung_over store.old free.now bound.now limit.now up }
{
    let h = node::header::read_levels(store);
    let live = node::header::read_live(store);
    let num = free[10 * h] as usize;
    let place = low_place(h, up);
    let mut low = [0u8; 1089];
    let mut high = [0u8; 1089];
    let cuts = cut_both(store, h, bound, limit, free, &mut low, &mut high);
    take_range(store, h, bound, limit, free, up);
    let behind = cuts.low;
    let last = cuts.high;
    let lower = root::half_at(free, place, 5 * h, behind);
    let higher = root::half_at(free, 17 * h - place, h, last);
    let halves = Halves {
        levels: h,
        low: lower,
        high: higher,
    };
    root::write_root(store, halves, bound, limit, free, &low, &high);
    node::writer::write_header(store, num, h + 1, live);
}

// The same, told by the two paths, the lower one first.
fn swing_over(store: &mut [u8], free: &[u16], p: &[u8], r: &[u8], up: bool)
    requires { Plan store.old free.now p.now r.now up }
    ensures { store.new ≡ swung_over store.old free.now (past p.now) (past r.now) up }
{
    let mut bound = [0u8; 65];
    put_past(&mut bound, p);
    let b = p.len() + 1;
    let mut limit = [0u8; 65];
    put_past(&mut limit, r);
    let l = r.len() + 1;
    swing_between(store, free, &bound[0..b], &limit[0..l], up);
}

// What is below `from` comes below `to`, by at most 10 × L + 2 nodes: no node that was reachable is written but node 0, whose live count
// is still the old one.
pub fn swing(store: &mut [u8], free: &[u16], from: &[u8], to: &[u8])
    requires { SwingAsks store.old free.now from.now to.now }
    ensures { Swings store.old store.new free.now from.now to.now }
{
    if octets::precedes(from, to) {
        swing_over(store, free, from, to, true);
        return;
    }
    swing_over(store, free, to, from, false);
}
