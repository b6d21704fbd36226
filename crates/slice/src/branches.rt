// The entries of a part of an interior node: its children's, each pivot without its first bytes. Relies on node's children and page, on push's room (a
// pivot without its first bytes) and on octets; specs/Point says what stands in the page.
ghost use Rattle.std.specs.Prelude.{◌≡◌, ◌++◌, true, ◌+◌, ◌≤◌, ◌<◌, length};
ghost use Rattle.node.specs.Spans.{pending_of};
ghost use Rattle.push.specs.Laws.Written.{small_numbers};
ghost use Rattle.slice.specs.Point.{before_line, point_of, Held};
ghost use Rattle.slice.specs.Right.{all_line};

use node::branches::{Branch, Branches};
use node::entries::Entry;
use node::page::Page;
use push::room::past;

// The entries of the children.
pub fn emit_branches(page: &mut Page, children: Branches, d: usize)
    requires { (length page.old + length (all_line d (pending_of children)) ≤ 1016) × (small_numbers (pending_of children) ≡ true) }
    ensures { page.new ≡ page.old ++ all_line d (pending_of children.entry) }
{
    for child in children {
        page.push(Entry::Child(child.number, past(child.low, d)));
    }
}

// The entries of the part before a cut k: the child that holds it strictly inside is there under a new number. Gives that child.
pub fn emit_left<'a>(
    page: &mut Page,
    children: Branches<'a>,
    k: &[u8],
    d: usize,
    num: usize,
) -> Option<Branch<'a>>
    requires { (length page.old + length (before_line d num (pending_of children) children.high.now k.now) ≤ 1016)
        × (small_numbers (pending_of children) ≡ true)
        × (num < 65536) }
    ensures { (page.new ≡ page.old ++ before_line d num (pending_of children.entry) children.entry.high.now k.now)
        × Held (point_of 0 (pending_of children.entry) children.entry.high.now k.now) result }
{
    for child in children {
        if octets::precedes(k, child.high) {
            if !octets::precedes(child.low, k) {
                return None;
            }
            page.push(Entry::Child(num, past(child.low, d)));
            return Some(child);
        }
        page.push(Entry::Child(child.number, past(child.low, d)));
    }
    None
}
