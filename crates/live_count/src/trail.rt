// The nodes above that hold messages. Relies on visibility (the messages of one node) and on node (a path by value); specs/Walk says what passes a trail.
ghost use Rattle.std.specs.Prelude.{◌≡◌, ◌≤◌, length};

use crate::visibility;
use node::entries::Entries;
use node::path_buffer::PathBuffer;

// A node of a trail: its entries, and how many bytes it lifts.
#[derive(Clone, Copy)]
pub struct Stage<'a> {
    pub entries: Entries<'a>,
    pub lift: usize,
}

// The nodes from the root down, at most as many as a tree has levels.
#[derive(Clone, Copy)]
pub struct Trail<'a> {
    pub stages: [Stage<'a>; 8],
    pub depth: usize,
    ghost full: { length stages ≡ 8 },
    ghost few: { depth ≤ 8 },
}

impl<'a> Trail<'a> {
    ghost use Rattle.std.specs.Prelude.{◌<◌, ◌+◌, ◌++◌, ◌∷◌, []};
    ghost use Rattle.live_count.specs.Walk.{passing, stages_of, LiftsWithin};

    // No nodes.
    pub fn new() -> Trail<'a>
        ensures { result.depth ≡ 0 }
    {
        let stage = Stage {
            entries: Entries { rest: &[] },
            lift: 0,
        };
        Trail {
            stages: [stage; 8],
            depth: 0,
        }
    }

    // The nodes, the root first.
    pub fn nodes(&self) -> &[Stage<'a>]
        ensures { result.now ≡ stages_of self.now }
    {
        &self.stages[..self.depth]
    }

    // One node more.
    pub fn push(&mut self, stage: Stage<'a>)
        requires { self.old.depth < 8 }
        ensures { (stages_of self.new ≡ stages_of self.old ++ stage.entry ∷ []) × (self.new.depth ≡ self.old.depth + 1) }
    {
        self.stages[self.depth] = stage;
        self.depth += 1;
    }

    // Whether no node has a message on a path that is short enough. The nearest is asked first: where it clears, it hides most.
    pub fn is_visible(&self, path: &[u8]) -> bool
        requires { (length path.now ≤ 64) × LiftsWithin (length path.now) self.now }
        ensures { result ≡ passing self.now path.now }
    {
        let nodes = self.nodes();
        for depth in (0..nodes.len()).rev() {
            let stage = nodes[depth];
            if !visibility::none_covers(stage.entries, &path[stage.lift..]) {
                return false;
            }
        }
        true
    }

    // Whether the path that is a prefix and a key is short enough, and no node has a message on it.
    pub fn is_live(&self, prefix: &PathBuffer, key: &[u8]) -> bool
        requires { LiftsWithin (length prefix.now) self.now }
        ensures { result ≡ passing self.now (prefix.now ++ key.now) }
    {
        let Some(full) = prefix.followed_by(key) else {
            return false;
        };
        self.is_visible(full.as_slice())
    }
}
