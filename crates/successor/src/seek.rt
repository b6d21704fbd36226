// What next asks of the paths that its walk comes to: the best so far is the least that is wanted, unfit and present, and a child that can hold no
// better one is passed over. Relies on joined, path (shapes), lookup, node's buffer of a path and laws.
ghost use Rattle.std.specs.Prelude.{◌≡◌, true, ◌++◌, ◌+◌, ◌≤◌, length};
ghost use Rattle.image.specs.Sound.{sound};
ghost use Rattle.path.specs.Fed.{shape_is};
ghost use Rattle.laws.specs.Reading.Far.{far_from};
ghost use Rattle.laws.specs.Reading.Seek.{better, wanted};
ghost use Rattle.node.specs.Fitted.{buffer_is};
ghost use Rattle.successor.specs.Walk.{unfit};

use crate::joined;
use crate::walk::Visitor;
use node::path_buffer::PathBuffer;
use path::Shape;

// The paths sought are below `below`, after `after`, and what follows `below` in them does not go on from the shape.
#[derive(Drop)]
pub struct Seek<'a> {
    pub store: &'a [u8],
    pub below: &'a [u8],
    pub after: &'a [u8],
    pub shape: Shape,
    pub best: Option<PathBuffer>,
    ghost whole: { sound store.now ≡ true },
}

impl<'a> Seek<'a> {
    // Whether pre ++ s comes before the best path so far.
    #[tactic(auto, unfolding(laws::specs::Reading::Seek::better))]
    fn is_better(&self, pre: &[u8], s: &[u8]) -> bool
        ensures { result ≡ better (buffer_is self.now.best) (pre.now ++ s.now) }
    {
        let Some(best) = &self.best else {
            return true;
        };
        joined::joined_precedes(pre, s, best.as_slice())
    }

    // Whether pre ++ s is below `below`, after `after` and before the best path so far.
    fn is_wanted(&self, pre: &[u8], s: &[u8]) -> bool
        ensures { result ≡ wanted self.now.below.now self.now.after.now (buffer_is self.now.best) (pre.now ++ s.now) }
    {
        if !joined::precedes_joined(self.after, pre, s) {
            return false;
        }
        if !joined::starts_joined(self.below, pre, s) {
            return false;
        }
        self.is_better(pre, s)
    }

    // Whether no path from pre ++ low up to pre ++ high can be wanted.
    fn is_far(&self, pre: &[u8], low: &[u8], high: &[u8]) -> bool
        ensures { result ≡ far_from self.now.below.now self.now.after.now (pre.now ++ low.now) (pre.now ++ high.now) (buffer_is self.now.best) }
    {
        if !joined::precedes_joined(self.after, pre, high) {
            return true;
        }
        if !self.is_better(pre, low) {
            return true;
        }
        if !joined::precedes_joined(self.below, pre, high) {
            return true;
        }
        if !joined::precedes_joined(self.below, pre, low) {
            return false;
        }
        !joined::starts_joined(self.below, pre, low)
    }

    // Whether what follows `below` in pre ++ s does not go on from the shape, without joining them. From the dead shape nothing does.
    fn is_unfit(&self, pre: &[u8], s: &[u8]) -> bool
        requires { length self.now.below.now ≤ length pre.now + length s.now }
        ensures { result ≡ unfit (shape_is self.now.shape) self.now.below.now (pre.now ++ s.now) }
    {
        if self.shape.is_none() {
            return true;
        }
        let n = pre.len();
        let cut = self.below.len();
        if n < cut {
            return !path::goes_on(self.shape, &s[cut - n..]);
        }
        let front = path::feed(self.shape, &pre[cut..]);
        !path::goes_on(front, s)
    }
}

impl<'a> Visitor for Seek<'a> {
    ghost use Rattle.successor.specs.Sought.{Sought, sought-nothing, sought-both};

    ghost walks = { Sought };

    // The path takes the place of the best so far, if it is wanted, unfit and present. The lookup comes last: it is the dear test.
    fn visit(&mut self, pre: &[u8], s: &[u8]) {
        if !self.is_wanted(pre, s) {
            return;
        }
        if !self.is_unfit(pre, s) {
            return;
        }
        let Some(full) = PathBuffer::join(pre, s) else {
            return;
        };
        let Some(_) = lookup::value_of(self.store, full.as_slice()) else {
            return;
        };
        self.best = Some(full);
    }

    fn passes_over(&self, pre: &[u8], low: &[u8], high: &[u8]) -> bool {
        self.is_far(pre, low, high)
    }

    ghost nothing = { sought-nothing };

    ghost both = { sought-both };
}
