// The messages above a node that can be on one of its keys, as notes: a node's are made of its parent's and of the parent's own messages, and each
// pair of a leaf is held against the leaf's alone. Relies on node (entries) and on octets; specs/Notes says what a note tells.
ghost use Rattle.std.specs.Prelude.{◌≡◌, ◌≤◌, length, unwrap_or};

use node::entries::{Entries, Entry, Message};

// A message as the keys under a node see it: the suffix past what the node lifts, and whether it clears all that begin with it or names one.
#[derive(Clone, Copy)]
pub struct Note<'a> {
    pub clears: bool,
    pub path: &'a [u8],
}

impl<'a> Note<'a> {
    ghost use Rattle.std.specs.Prelude.{MatchOption, ℕ, List, true};
    ghost use Rattle.live_count.specs.Notes.Notes.{note_covers, Uncovered, Same};
    ghost use Rattle.node.specs.Lent.{entry_is};

    // The note of a message; a pair and a child have none.
    #[inline(always)]
    pub fn of(entry: Entry<'a>) -> Option<Note<'a>>
        ensures { MatchOption result (Uncovered (entry_is entry.entry)) (λ v. Same (entry_is entry.entry) v) }
    {
        let Entry::Message(message) = entry else {
            return None;
        };
        Some(match message {
            Message::Put(path, _) => Note {
                clears: false,
                path,
            },
            Message::Drop(path) => Note {
                clears: false,
                path,
            },
            Message::Clear(path) => Note { clears: true, path },
        })
    }

    // Whether it is on a key. A clear is compared with the key's beginning from the end, where paths mostly differ.
    #[inline(always)]
    pub fn covers(&self, key: &[u8]) -> bool
        ensures { result ≡ note_covers self.now key.now }
    {
        let path = self.path;
        if !self.clears {
            return octets::equal(path, key);
        }
        let size = path.len();
        if key.len() < size {
            return false;
        }
        octets::equal(path, &key[..size])
    }

    // Whether it is seen to be on all keys: what clears their common beginning.
    #[inline(always)]
    fn covers_all(&self) -> bool
        ensures { result ≡ true → (k : List ℕ) → note_covers self.now k ≡ true }
    {
        self.clears && self.path.is_empty()
    }

    // Whether both are seen to be on the same keys.
    fn is_like(&self, other: Note<'a>) -> bool
        ensures { result ≡ true → (k : List ℕ) → note_covers self.now k ≡ note_covers other.entry k }
    {
        self.clears == other.clears && octets::equal(self.path, other.path)
    }
}

// The keys from `low` up to `high`, of which a message sees what follows `after`.
#[derive(Clone, Copy)]
pub struct Keys<'b> {
    pub after: &'b [u8],
    pub low: &'b [u8],
    pub high: &'b [u8],
}

impl<'b> Keys<'b> {
    ghost use Rattle.std.specs.Prelude.{MatchOption};
    ghost use Rattle.live_count.specs.Notes.Notes.{Misses, Unconcerned, Concerns};

    // Whether a note is seen to be on no key from `low` up: its path comes before `low`, and is no beginning of `low` that the message clears.
    fn stand_above(&self, note: Note) -> bool
        ensures { Misses note.entry.path.now note.entry.clears self.now.low.now result }
    {
        octets::precedes(note.path, self.low)
            && !(note.clears && octets::begins_with(note.path, self.low))
    }

    // What a note says of the keys; none where it is on none of them.
    #[inline(always)]
    pub fn narrow<'a>(&self, note: Note<'a>) -> Option<Note<'a>>
        ensures { MatchOption result (Unconcerned note.entry self.now) (λ v. Concerns note.entry self.now v) }
    {
        let shared = octets::common_length(note.path, self.after);
        let rest = Note {
            clears: note.clears,
            path: &note.path[shared..],
        };
        if shared < self.after.len() {
            // A clear of a beginning of `after` is on all keys.
            if note.clears && rest.path.is_empty() {
                return Some(rest);
            }
            return None;
        }
        if !octets::precedes(rest.path, self.high) {
            return None;
        }
        if self.stand_above(rest) {
            return None;
        }
        Some(rest)
    }
}

// At most 64 notes; their count is none where there was no room, and then they tell nothing. Each level of a walk has its own, so that their paths
// and their kinds lie apart: a note takes 17 bytes of stack, not 24.
#[derive(Clone, Copy)]
pub struct Notes<'a> {
    pub paths: [&'a [u8]; 64],
    pub count: Option<usize>,
    pub clears: [bool; 64],
    ghost full: { length paths ≡ 64 },
    ghost alike: { length clears ≡ 64 },
    ghost few: { unwrap_or count 0 ≤ 64 },
}

impl<'a> Notes<'a> {
    ghost use Rattle.std.specs.Prelude.{◌++◌, ◌<◌, ℕ, List, MatchOption, IsNone, IsSome, not, true};
    ghost use Rattle.live_count.specs.Notes.Notes.{note_covers, none_covers, silent, Stands, Empty, Gathered};
    ghost use Rattle.node.specs.Lent.{left_of};

    // No notes.
    pub fn new() -> Notes<'a>
        ensures { Empty result }
    {
        Notes {
            paths: [&[]; 64],
            count: Some(0),
            clears: [false; 64],
        }
    }

    // As new ones.
    pub fn clear(&mut self)
        ensures { Empty self.new }
    {
        self.count = Some(0);
    }

    // The note at a place.
    #[inline(always)]
    fn note(&self, i: usize) -> Note<'a>
        requires { i < 64 }
        ensures { Stands self.now i result }
    {
        Note {
            clears: self.clears[i],
            path: self.paths[i],
        }
    }

    // Whether no note is on a key; none where they tell nothing. The last is asked first: of notes handed down it is the newest one of the nearest node,
    // where a clear hides most.
    pub fn is_quiet(&self, key: &[u8]) -> Option<bool>
        ensures { MatchOption result (IsNone self.now.count) (λ r. IsSome self.now.count × (r ≡ silent self.now key.now)) }
    {
        for i in (0..self.count?).rev() {
            if self.note(i).covers(key) {
                return Some(false);
            }
        }
        Some(true)
    }

    // One note in place of all: it is on all keys.
    fn keep_alone(&mut self, note: Note<'a>)
        requires { IsSome self.old.count × ((k : List ℕ) → note_covers note k ≡ true) }
        ensures { (lo hi : List ℕ) → Gathered lo hi (λ k. not (note_covers note.entry k)) self.old self.new }
    {
        self.paths[0] = note.path;
        self.clears[0] = note.clears;
        self.count = Some(1);
    }

    // A note behind the others. One that says what the last one does is not kept: a path that is put again and again needs one note. Nor is any other
    // where one is on all keys.
    #[inline(always)]
    fn push(&mut self, note: Note<'a>)
        ensures { (lo hi : List ℕ) → Gathered lo hi (λ k. not (note_covers note.entry k)) self.old self.new }
    {
        let Some(count) = self.count else {
            return;
        };
        if note.covers_all() {
            self.keep_alone(note);
            return;
        }
        if 0 < count {
            let last = self.note(count - 1);
            if last.covers_all() || last.is_like(note) {
                return;
            }
        }
        if 64 <= count {
            self.count = None;
            return;
        }
        self.paths[count] = note.path;
        self.clears[count] = note.clears;
        self.count = Some(count + 1);
    }

    // What a note says of the keys, behind the others.
    #[inline(always)]
    fn add(&mut self, note: Note<'a>, keys: &Keys)
        ensures { Gathered keys.now.low.now keys.now.high.now (λ k. not (note_covers note.entry (keys.now.after.now ++ k))) self.old self.new }
    {
        if let Some(rest) = keys.narrow(note) {
            self.push(rest);
        }
    }

    // What other notes say of the keys, behind these.
    pub fn add_notes(&mut self, others: &Notes<'a>, keys: &Keys)
        ensures { IsSome others.now.count
            → Gathered keys.now.low.now keys.now.high.now (λ k. silent others.now (keys.now.after.now ++ k)) self.old self.new }
    {
        let Some(count) = others.count else {
            return;
        };
        for i in 0..count {
            self.add(others.note(i), keys);
        }
    }

    // What the messages among entries say of the keys, behind these. Where there is no room, no more is read.
    pub fn add_messages(&mut self, entries: Entries<'a>, keys: &Keys)
        ensures { Gathered keys.now.low.now keys.now.high.now (λ k. none_covers (left_of entries.entry) (keys.now.after.now ++ k)) self.old self.new }
    {
        for entry in entries {
            if self.count.is_none() {
                return;
            }
            if let Some(note) = Note::of(entry) {
                self.add(note, keys);
            }
        }
    }
}
