// The numbers of the format, the refusal that is the error of the store's calls, and the place of a listing. specs/Answers.antt gives each refusal
// its number; the other files of specs/ hold the paper's definitions, which the contracts of the crates above cite. Relies on std alone.

#![tactic(auto)]

ghost use Rattle.std.specs.Prelude.{◌≡◌};
ghost use Rattle.image.specs.Answers.{refusal_number};

use std::error::Error;
use std::fmt;

// The numbers of the image, as document 01 gives them, and the kinds of a batch, which are ours. Code cites them by name; the definitions of
// specs/ have their own, and a proof that meets them holds only while the two agree.
pub const VALUE_LIMIT: usize = 48;

pub const PATH_LIMIT: usize = 64;

pub const PIVOT_LIMIT: usize = 65;

pub const NODE_SIZE: usize = 1024;

pub const FEWEST_NODES: usize = 32;

pub const MOST_NODES: usize = 1024;

pub const ENTRIES_LIMIT: usize = 1016;

pub const WORK_PER_NODE: usize = 128;
// Node 0: where its numbers stand.
pub const COUNT_AT: usize = 4;

pub const ROOT_AT: usize = 6;

pub const LEVELS_AT: usize = 8;

pub const LIVE_AT: usize = 10;
// Other nodes: kind, level, and where the entries begin.
pub const KIND_AT: usize = 2;

pub const LEVEL_AT: usize = 4;

pub const ENTRIES_AT: usize = 8;
// Kinds, of node 0, of nodes and of entries.
pub const HEADER: usize = 0x0100;

pub const LEAF: usize = 0x0001;

pub const INTERIOR: usize = 0x0002;

pub const PAIR: usize = 0x0001;

pub const CHILD: usize = 0x0010;

pub const PUT: usize = 0x0020;

pub const DROP: usize = 0x0021;

pub const CLEAR: usize = 0x0022;
// Kinds of the further pieces of a batch, specs/Batch.antt. 0023 is kept for request S-11's message.
pub const MOVE: usize = 0x0024;

pub const GET: usize = 0x0030;

pub const NEXT: usize = 0x0031;

pub const SETTLE: usize = 0x0040;

pub const TIDY: usize = 0x0041;

pub const FLUSH: usize = 0x0042;

pub const HEAL: usize = 0x0043;

// Which question got a no, as the error of every call. The comment is the question; specs/Answers.antt has its number.
#[derive(Clone, Copy, Debug, PartialEq, Eq)]
pub enum Refusal {
    // Is each store a whole number of nodes, 32 to 1,024, and any work area long enough?
    Length = 1,
    // Is each image sound?
    Unsound = 2,
    // Is each path well formed?
    Malformed = 3,
    // Is the value at most 48 bytes?
    LongValue = 4,
    // Is the buffer long enough?
    ShortBuffer = 5,
    // Is the number that of a reachable interior node?
    NotInterior = 6,
    // Is neither path a proper beginning of the other?
    Nested = 7,
    // Is there such a path?
    Absent = 8,
    // Is every present path still well formed after the move?
    BecomesMalformed = 9,
    // Is the path present, or are fewer than n paths?
    Full = 10,
}

// The number of the question, as a batch and the calls for C answer it.
impl From<Refusal> for u32 {
    ghost from_gives = { λ refusal number. number ≡ refusal_number refusal };

    #[tactic(auto, unfolding(crate::specs::Answers::refusal_number))]
    fn from(refusal: Refusal) -> u32 {
        refusal as u32
    }
}

// The question that got a no, in words.
impl fmt::Display for Refusal {
    fn fmt<W: fmt::Write>(&self, f: &mut fmt::Formatter<W>) -> fmt::Result {
        f.write_str(match self {
            Refusal::Length => "a store is no whole number of nodes, or the work area is short",
            Refusal::Unsound => "an image is not sound",
            Refusal::Malformed => "a path is not well formed",
            Refusal::LongValue => "the value is longer than 48 bytes",
            Refusal::ShortBuffer => "the buffer is short",
            Refusal::NotInterior => "the number is of no reachable interior node",
            Refusal::Nested => "one path is a proper beginning of the other",
            Refusal::Absent => "there is no such path",
            Refusal::BecomesMalformed => "a path would not be well formed after the move",
            Refusal::Full => "the path is absent, and there are as many paths as nodes",
        })
    }
}

impl Error for Refusal {}

// The place of a listing: the first `len` bytes are the last path given. With `len` 0 none has been given yet.
#[derive(Clone, Copy)]
pub struct Listing {
    pub last: [u8; 64],
    pub len: usize,
}
