// Next as one walk over the tree (module walk): the best path so far is carried along, and a child that can hold no better one is not entered
// (module seek). The walk may ask one thing more of a path: that what follows `below` does not go on from a shape. Relies on: a sound store (the
// caller has checked it), node (a node's entries), lookup (from the root), path (shapes) and octets.

#![tactic(auto)]

pub mod joined;
pub mod seek;
pub mod walk;

ghost use Rattle.std.specs.Prelude.{◌≡◌, true};
ghost use Rattle.image.specs.Table.{least_after};
ghost use Rattle.image.specs.Sound.{sound, table_of};
ghost use Rattle.path.specs.Fed.{shape_is};
ghost use Rattle.laws.specs.Filter.{keep};
ghost use Rattle.node.specs.Fitted.{buffer_is};
ghost use Rattle.successor.specs.Walk.{unfit};

use node::path_buffer::PathBuffer;
use path::Shape;
use seek::Seek;

// The least path of a sound store that is below `below` and after `after`, and of which what follows `below` does not go on from the shape.
pub fn next_unfit(store: &[u8], below: &[u8], after: &[u8], shape: Shape) -> Option<PathBuffer>
    requires { sound store.now ≡ true }
    ensures { buffer_is result
        ≡ least_after below.now after.now (keep (unfit (shape_is shape) below.now) (table_of store.now)) }
{
    let mut seek = Seek {
        store,
        below,
        after,
        shape,
        best: None,
    };
    walk::walk_store(&mut seek, store);
    seek.best
}

// The least path of a sound store that is below `below` and after `after`; both may be empty.
pub fn next_path(store: &[u8], below: &[u8], after: &[u8]) -> Option<PathBuffer>
    requires { sound store.now ≡ true }
    ensures { buffer_is result ≡ least_after below.now after.now (table_of store.now) }
{
    next_unfit(store, below, after, None)
}
