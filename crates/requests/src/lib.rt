// The pieces of a batch: an iterator over its requests, which lend the bytes that stand in them; an answer written as bytes; the number of an outcome.
// Relies on node (a rest of two strings), octets, and image for the definitions.

#![tactic(auto)]

ghost use Rattle.std.specs.Prelude.{◌≡◌, ◌+◌, ◌≤◌, length, MatchOption};
ghost use Rattle.image.specs.Path.{path_limit};
ghost use Rattle.image.specs.Batch.{answer_bytes};
ghost use Rattle.image.specs.Answers.{refusal_limit, outcome_number, outcome_answer, found_answer};
ghost use Rattle.octets.specs.Put.{put};
ghost use Rattle.query.specs.Asked.{found_length};
ghost use Rattle.requests.specs.Pieces.{NotNode, IsNode, NotOf, IsOf, Unread, Leads, query_most, head_bytes, request_is, requests_left};

use image::Refusal;
use node::entries::split_keyed;

// The length of an answer's head: two bytes for how many follow it, two for its number. The answer of a change is its head alone.
pub const ANSWER_HEAD: usize = 4;

// A request that changes the store, or keeps it up.
#[derive(Clone, Copy)]
pub enum Change<'a> {
    Put(&'a [u8], &'a [u8]),
    Drop(&'a [u8]),
    Clear(&'a [u8]),
    Move(&'a [u8], &'a [u8]),
    Settle,
    Tidy,
    Flush(usize),
    Heal(usize),
}

// A request that reads.
#[derive(Clone, Copy)]
pub enum Query<'a> {
    Get(&'a [u8]),
    Next(&'a [u8], &'a [u8]),
}

// A piece that reads.
#[derive(Clone, Copy)]
pub enum Piece<'a> {
    Change(Change<'a>),
    Query(Query<'a>),
}

// The bytes of the pieces that are still to be read.
#[derive(Clone, Copy)]
pub struct Pieces<'a> {
    pub rest: &'a [u8],
}

// The number of a node, where it fills the rest.
fn read_node(rest: &[u8]) -> Option<usize>
    ensures { MatchOption result (NotNode rest.now) (λ i. IsNode rest.now i) }
{
    if rest.len() == 2 {
        Some(octets::u16_at(rest, 0))
    } else {
        None
    }
}

// The request of a kind with this rest.
#[inline(always)] // with the two below: a piece goes through memory otherwise, and a get of nothing takes a third more
#[tactic(auto, unfolding(image::specs::Batch::request_of, image::specs::Batch::plain_of))]
fn request_of(kind: usize, rest: &[u8]) -> Option<Piece>
    ensures { MatchOption result (NotOf kind rest.now) (λ p. IsOf kind rest.now p) }
{
    match kind {
        image::PUT => {
            let (path, value) = split_keyed(rest)?;
            Some(Piece::Change(Change::Put(path, value)))
        }
        image::DROP => Some(Piece::Change(Change::Drop(rest))),
        image::CLEAR => Some(Piece::Change(Change::Clear(rest))),
        image::MOVE => {
            let (from, to) = split_keyed(rest)?;
            Some(Piece::Change(Change::Move(from, to)))
        }
        image::GET => Some(Piece::Query(Query::Get(rest))),
        image::NEXT => {
            let (path, after) = split_keyed(rest)?;
            Some(Piece::Query(Query::Next(path, after)))
        }
        image::SETTLE => rest.is_empty().then_some(Piece::Change(Change::Settle)),
        image::TIDY => rest.is_empty().then_some(Piece::Change(Change::Tidy)),
        image::FLUSH => Some(Piece::Change(Change::Flush(read_node(rest)?))),
        image::HEAL => Some(Piece::Change(Change::Heal(read_node(rest)?))),
        _ => None,
    }
}

// The piece that bytes begin with, and the bytes behind it.
#[inline(always)]
pub fn read_piece(calls: &[u8]) -> Option<(Piece, &[u8])>
    ensures { MatchOption result (Unread calls.now) (λ p. Leads calls.now p.0 p.1.now) }
{
    let (head, body) = calls.split_at_checked(4)?;
    let (rest, behind) = body.split_at_checked(octets::u16_at(head, 0))?;
    let piece = request_of(octets::u16_at(head, 2), rest)?;
    Some((piece, behind))
}

impl<'a> Iterator for Pieces<'a> {
    ghost use Rattle.std.specs.Iterator.{YieldsFirstBy, item_count};

    type Item = Piece<'a>;

    ghost next_gives = { YieldsFirstBy request_is requests_left };

    ghost remaining = { item_count requests_left };

    #[inline(always)]
    fn next(&mut self) -> Option<Piece<'a>> {
        let (piece, behind) = read_piece(self.rest)?;
        self.rest = behind;
        Some(piece)
    }
}

// How many bytes the answer of a query takes at most.
#[tactic(auto, unfolding(crate::specs::Pieces::query_most))]
pub fn most_bytes(query: Query) -> usize
    ensures { result ≡ query_most query.entry }
{
    match query {
        Query::Get(_) => ANSWER_HEAD + image::VALUE_LIMIT,
        Query::Next(_, _) => ANSWER_HEAD + image::PATH_LIMIT,
    }
}

// The number of an outcome: 0, or that of the refusal.
#[tactic(auto, unfolding(image::specs::Answers::outcome_number, image::specs::Answers::refusal_number))]
pub fn outcome_number(outcome: Result<(), Refusal>) -> u32
    ensures { (result ≡ outcome_number outcome) × (result ≤ refusal_limit) }
{
    match outcome {
        Ok(()) => 0,
        Err(refusal) => u32::from(refusal),
    }
}

// The head of an answer: how many bytes follow it, and its number.
fn write_head(answers: &mut [u8], at: usize, len: usize, number: u32)
    requires { (at + 4 ≤ length answers.old) × (len ≤ path_limit) × (number ≤ refusal_limit) }
    ensures { answers.new ≡ put answers.old at (head_bytes len number) }
{
    octets::put_u16(answers, at, len);
    octets::put_u16(answers, at + 2, number as usize);
}

// The answer of a change; answers the place behind it.
pub fn write_outcome(answers: &mut [u8], at: usize, outcome: Result<(), Refusal>) -> usize
    requires { at + 4 ≤ length answers.old }
    ensures { (answers.new ≡ put answers.old at (answer_bytes (outcome_answer outcome))) × (result ≡ at + length (answer_bytes (outcome_answer outcome))) }
{
    write_head(answers, at, 0, outcome_number(outcome));
    at + ANSWER_HEAD
}

// The answer of a query, whose bytes stand at the front of its buffer; answers the place behind it.
pub fn write_found(
    answers: &mut [u8],
    at: usize,
    found: Result<usize, Refusal>,
    buffer: &[u8],
) -> usize
    requires { (at + 4 + found_length found ≤ length answers.old) × (found_length found ≤ length buffer.now) × (found_length found ≤ path_limit) }
    ensures { (answers.new ≡ put answers.old at (answer_bytes (found_answer found buffer.now)))
        × (result ≡ at + length (answer_bytes (found_answer found buffer.now))) }
{
    match found {
        Ok(n) => {
            write_head(answers, at, n, 0);
            octets::copy_at(answers, at + ANSWER_HEAD, &buffer[0..n]);
            at + ANSWER_HEAD + n
        }
        Err(refusal) => {
            write_head(answers, at, 0, u32::from(refusal));
            at + ANSWER_HEAD
        }
    }
}
