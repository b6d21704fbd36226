// Where a cut falls among the children of a node. Relies on node's children and on octets; specs/Point says what is sought.
ghost use Rattle.std.specs.Prelude.{◌≡◌};
ghost use Rattle.node.specs.Spans.{pending_of};
ghost use Rattle.slice.specs.Point.{point_of, Held};
ghost use Rattle.slice.specs.Right.{rest_of};

use node::branches::{Branch, Branches};

// The child that holds a cut k strictly inside, and the children from the cut on but for that one.
pub fn split_children<'a>(children: Branches<'a>, k: &[u8]) -> (Option<Branch<'a>>, Branches<'a>)
    ensures { Held (point_of 0 (pending_of children.entry) children.entry.high.now k.now) result.0
        × (pending_of result.1 ≡ rest_of (pending_of children.entry) children.entry.high.now k.now)
        × (result.1.high.now ≡ children.entry.high.now) }
{
    let mut behind = children;
    loop {
        let here = behind;
        let Some(child) = behind.next() else {
            return (None, here);
        };
        if octets::precedes(k, child.high) {
            if octets::precedes(child.low, k) {
                return (Some(child), behind);
            }
            return (None, here);
        }
    }
}
