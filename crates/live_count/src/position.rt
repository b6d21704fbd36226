// Where a walk stands: what all paths there begin with, the nodes above that hold messages, and notes of what these say. How a walk comes to a node
// (arrive) and to its children (enter). Relies on trail, notes, node and octets; specs/Noted says what the notes tell.
ghost use Rattle.std.specs.Prelude.{◌≡◌, ◌≤◌, length};
ghost use Rattle.live_count.specs.Walk.{LiftsWithin};

use crate::notes::{Keys, Notes};
use crate::trail::{Stage, Trail};
use crate::visibility;
use node::entries::{Entries, Entry};
use node::path_buffer::PathBuffer;

// No two of its arrays that `empty_like` copies lie side by side: LLVM would keep one copy more of such two on the stack of a 32-bit processor.
#[derive(Clone, Copy)]
pub struct Position<'a> {
    pub trail: Trail<'a>,
    pub notes: Notes<'a>,
    pub prefix: PathBuffer,
    ghost lifted: { LiftsWithin (length prefix) trail },
}

impl<'a> Position<'a> {
    ghost use Rattle.std.specs.Prelude.{◌++◌, ◌<◌, MatchOption};
    ghost use Rattle.image.specs.Bytes.{shared};
    ghost use Rattle.node.specs.Lent.{entry_is, left_of};
    ghost use Rattle.live_count.specs.Noted.{AtRoot, KeyTold, Standing, Tells, TrailNoted, Entered};
    ghost use Rattle.live_count.specs.Walk.{passing, decides};

    // Above the root.
    pub fn new() -> Position<'a>
        ensures { AtRoot result }
    {
        Position {
            trail: Trail::new(),
            notes: Notes::new(),
            prefix: PathBuffer::new(),
        }
    }

    // As a new one, but with copies of this one's stages and paths: of what `new` gives, the stack of a 32-bit processor keeps two at each level of a walk.
    #[inline(always)]
    pub fn empty_like(&self) -> Position<'a>
        ensures { AtRoot result }
    {
        Position {
            trail: Trail {
                stages: self.trail.stages,
                depth: 0,
            },
            notes: Notes {
                paths: self.notes.paths,
                count: Some(0),
                clears: [false; 64],
            },
            prefix: PathBuffer::new(),
        }
    }

    // Whether the path that is the prefix and a key is short enough, and no node of the trail has a message on it.
    pub fn is_live(&self, key: &[u8]) -> bool
        ensures { result ≡ passing self.now.trail (self.now.prefix ++ key.now) }
    {
        self.trail.is_live(&self.prefix, key)
    }

    // The same of a key that the notes tell of, by these, or where they tell nothing, by the trail.
    pub fn shows(&self, key: &[u8]) -> bool
        requires { KeyTold self.now key.now }
        ensures { result ≡ passing self.now.trail (self.now.prefix ++ key.now) }
    {
        match self.notes.is_quiet(key) {
            Some(quiet) => quiet,
            None => self.is_live(key),
        }
    }

    // Whether an entry decides its path: it is a pair or a put, no later entry of its node says anything of its path, and none above does.
    pub fn decides(&self, entry: Entry, later: Entries) -> bool
        ensures { result ≡ decides (passing self.now.trail) self.now.prefix (entry_is entry.entry) (left_of later.entry) }
    {
        if let Entry::Pair(key, _) = entry {
            return self.is_live(key);
        }
        let Some((key, _)) = visibility::put_of(entry) else {
            return false;
        };
        visibility::none_covers(later, key) && self.is_live(key)
    }

    // The messages of the trail that can be on the keys, as notes, the nearest node's first.
    fn note_trail(&mut self, low: &[u8], high: &[u8])
        ensures { TrailNoted self.old low.now high.now self.new }
    {
        let prefix = self.prefix.as_slice();
        let trail = self.trail;
        let notes = &mut self.notes;
        notes.clear();
        let nodes = trail.nodes();
        for depth in (0..nodes.len()).rev() {
            let stage = nodes[depth];
            let keys = Keys {
                after: &prefix[stage.lift..],
                low,
                high,
            };
            notes.add_messages(stage.entries, &keys);
        }
    }

    // Comes to a node from above it. The pivots lack what its parent lifts, which is the prefix there. Gives how many bytes it lifts of them; none
    // where that is too long for any path.
    #[inline(never)] // its buffers would lie in the frame of every level of a walk
    pub fn arrive(&mut self, above: &Position<'a>, low: &[u8], high: &[u8]) -> Option<usize>
        requires { Tells above.now low.now high.now }
        ensures { MatchOption result (64 < length (above.now.prefix ++ shared low.now high.now)) (λ k. Standing above.now low.now high.now k self.new) }
    {
        let lifted = octets::common_length(low, high);
        let after = &low[..lifted];
        let low = &low[lifted..];
        let high = &high[lifted..];
        // Read before anything is written: of a copy from one position to another LLVM makes a memmove, which C would have to bring.
        let trail = above.trail;
        self.prefix = above.prefix.followed_by(after)?;
        self.trail = trail;
        if above.notes.count.is_some() {
            self.notes.clear();
            self.notes
                .add_notes(&above.notes, &Keys { after, low, high });
            return Some(lifted);
        }
        self.note_trail(low, high);
        Some(lifted)
    }

    // Goes on to where the node's children stand: its own messages join the trail, and the notes where they can be on its keys.
    pub fn enter(&mut self, entries: Entries<'a>, low: &[u8], high: &[u8])
        requires { self.old.trail.depth < 8 }
        ensures { Entered (left_of entries.entry) low.now high.now self.old self.new }
    {
        let after = &low[..0];
        self.notes.add_messages(entries, &Keys { after, low, high });
        if visibility::has_messages(entries) {
            let lift = self.prefix.as_slice().len();
            self.trail.push(Stage { entries, lift });
        }
    }
}
