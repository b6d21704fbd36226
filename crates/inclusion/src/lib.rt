// Whether every path of one store is in another: one walk over the first, which looks up each pair's and each put's path in the second. The first is
// asked only for a path that the second lacks: a message may have removed it. Relies on: two sound stores (the caller has checked them), successor's
// walk, lookup, node's buffer of a path.

#![tactic(auto)]

ghost use Rattle.std.specs.Prelude.{◌≡◌, true, ◌++◌};
ghost use Rattle.image.specs.Sound.{sound, table_of};
ghost use Rattle.inclusion.specs.Held.{is_held, included};

use node::path_buffer::PathBuffer;
use successor::walk::Visitor;

// Two stores, and whether all paths are held that the walk over the first came to.
#[derive(Drop)]
struct Inclusion<'a> {
    store: &'a [u8],
    other: &'a [u8],
    held: bool,
    ghost whole: { (sound store.now ≡ true) × (sound other.now ≡ true) },
}

impl<'a> Inclusion<'a> {
    // Whether the path pre ++ s is held: it is in `other`, or is not in `store`. A path that is too long is in neither.
    fn holds_path(&self, pre: &[u8], s: &[u8]) -> bool
        ensures { result ≡ is_held self.now.store.now self.now.other.now (pre.now ++ s.now) }
    {
        let Some(full) = PathBuffer::join(pre, s) else {
            return true;
        };
        let path = full.as_slice();
        if lookup::value_of(self.other, path).is_some() {
            return true;
        }
        if lookup::value_of(self.store, path).is_some() {
            return false; // missing in `other`
        }
        true
    }
}

impl<'a> Visitor for Inclusion<'a> {
    ghost use Rattle.inclusion.specs.Steps.{Inspected, inspected-nothing, inspected-both};

    ghost walks = { Inspected };

    fn visit(&mut self, pre: &[u8], s: &[u8]) {
        if self.held {
            self.held = self.holds_path(pre, s);
        }
    }

    // One path that is not held decides.
    fn passes_over(&self, _pre: &[u8], _low: &[u8], _high: &[u8]) -> bool {
        !self.held
    }

    ghost nothing = { inspected-nothing };

    ghost both = { inspected-both };
}

// Whether every path of a sound store is in another sound store.
pub fn is_included(store: &[u8], other: &[u8]) -> bool
    requires { (sound store.now ≡ true) × (sound other.now ≡ true) }
    ensures { result ≡ included (table_of store.now) (table_of other.now) }
{
    let mut inclusion = Inclusion {
        store,
        other,
        held: true,
    };
    successor::walk::walk_store(&mut inclusion, store);
    inclusion.held
}
