// The new root of a move: what lies left of both ranges, then for each range the node under its path and the pieces behind it. It knows ends of
// ranges and numbers only: the same for a move up and a move down. Relies on slice (the pieces) and on node's page.
ghost use Rattle.std.specs.Prelude.{◌≡◌, ◌++◌, ◌+◌, ◌*◌, ◌<◌, ◌≤◌, length};
ghost use Rattle.laws.specs.Page.{page};
ghost use Rattle.laws.specs.WriteNode.{write_node};
ghost use Rattle.slice.specs.Point.{fresh_in};
ghost use Rattle.swing.specs.Root.{half_in, half_line, root_line, HalfFits, RootAsks};

use node::entries::Entry;
use node::page::Page;
use slice::Parts;
use slice::pieces::Numbered;

// Half of a new root: the number of the node under a path, and the pieces behind its range.
#[derive(Clone, Copy)]
pub struct Half {
    pub number: usize,
    pub pieces: Numbered,
}

// Both halves of a new root, and how many levels lie under it.
#[derive(Clone, Copy)]
pub struct Halves {
    pub levels: usize,
    pub low: Half,
    pub high: Half,
}

// The half whose numbers stand at these places of the list of free nodes.
pub fn half_at(free: &[u16], place: usize, block: usize, parts: Parts) -> Half
    requires { (place + 1 ≤ length free.now) × (block + 2 ≤ length free.now) × (place < 65536) × (block < 65536) }
    ensures { result ≡ half_in free.now place block parts }
{
    Half {
        number: free[place] as usize,
        pieces: slice::pieces::number_pieces(parts, free, block),
    }
}

// The entries of a half.
fn emit_half(page: &mut Page, bound: &[u8], half: Half, out: &[u8])
    requires { HalfFits bound.now half out.now × (length page.old + length (half_line bound.now half out.now) ≤ 1016) }
    ensures { page.new ≡ page.old ++ half_line bound.now half out.now }
{
    let n = bound.len() - 1;
    page.push(Entry::Child(half.number, &bound[0..n]));
    slice::pieces::emit_parts(page, half.pieces, bound, out, 0);
}

// The new root, as the last of the free nodes that a move takes.
pub fn write_root(
    store: &mut [u8],
    halves: Halves,
    bound: &[u8],
    limit: &[u8],
    free: &[u16],
    behind: &[u8],
    last: &[u8],
)
    requires { RootAsks store.old halves.levels bound.now limit.now free.now halves.low behind.now halves.high last.now }
    ensures { store.new
        ≡ write_node store.old (fresh_in free.now (10 * halves.levels))
        (page 2 (halves.levels + 1)
        (root_line (fresh_in free.now (7 * halves.levels)) bound.now halves.low behind.now limit.now
        halves.high last.now)) }
{
    let h = halves.levels;
    let low = halves.low;
    let high = halves.high;
    let num = free[10 * h] as usize;
    let left = free[7 * h] as usize;
    let mut page = Page::new();
    page.push(Entry::Child(left, &[]));
    emit_half(&mut page, bound, low, behind);
    emit_half(&mut page, limit, high, last);
    page.write(store, num, image::INTERIOR, h + 1);
}
