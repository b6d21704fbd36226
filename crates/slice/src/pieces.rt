// The pages of a right part: the pieces of the child that held the cut, and a node written if there is something in its page. Relies on node's page and
// on push's room (a pivot without its first bytes); specs/Right says what stands in the pages.
ghost use Rattle.std.specs.Prelude.{◌≡◌, ◌++◌, not, ◌+◌, ◌≤◌, ◌<◌, length, eqb};
ghost use Rattle.node.specs.Whole.{HasNode};
ghost use Rattle.slice.specs.Point.{fresh_in};
ghost use Rattle.slice.specs.Right.{pieces_in, PartsFit, all_line, over_body};

use crate::Parts;
use node::entries::Entry;
use node::page::Page;
use push::room::past;

// The pieces of a right part, with the numbers of an edge and of a rest.
#[derive(Clone, Copy)]
pub struct Numbered {
    pub parts: Parts,
    pub edge: usize,
    pub rest: usize,
}

// The pieces of a child with the numbers that they take: the edge's at a place of the list of free nodes, the rest's behind it.
pub fn number_pieces(parts: Parts, free: &[u16], at: usize) -> Numbered
    requires { at + 2 ≤ length free.now }
    ensures { (result.parts ≡ parts)
        × (result.edge ≡ fresh_in free.now at)
        × (result.rest ≡ fresh_in free.now (at + 1))
        × (result.edge < 65536)
        × (result.rest < 65536) }
{
    let edge = free[at] as usize;
    let rest = free[at + 1] as usize;
    Numbered { parts, edge, rest }
}

// The entries of the pieces, each pivot without its first d bytes.
pub fn emit_parts(page: &mut Page, pieces: Numbered, k: &[u8], out: &[u8], d: usize)
    requires { PartsFit (length out.now) pieces.parts
        × (length page.old + length (all_line d (pieces_in pieces.edge pieces.rest k.now out.now pieces.parts)) ≤ 1016)
        × (pieces.edge < 65536)
        × (pieces.rest < 65536) }
    ensures { page.new ≡ page.old ++ all_line d (pieces_in pieces.edge pieces.rest k.now out.now pieces.parts) }
{
    let parts = pieces.parts;
    if parts.edge {
        page.push(Entry::Child(pieces.edge, past(k, d)));
    }
    if let Some(n) = parts.rest {
        page.push(Entry::Child(pieces.rest, past(&out[..n], d)));
    }
}

// A node with the entries of a page, if it has any. Tells whether it does.
pub fn write_some(page: &Page, store: &mut [u8], num: usize, level: usize) -> bool
    requires { HasNode store.old num × (level < 65536) }
    ensures { (store.new ≡ over_body num level page.now store.old) × (result ≡ not (eqb (length page.now) 0)) }
{
    if page.len() == 0 {
        return false;
    }
    page.write(store, num, image::INTERIOR, level);
    true
}
