// A batch: a list of calls as one call. Questions 1 and 2 are asked once; then call after call by the parts of the calls that follow these questions,
// each on the store as the last one left it, with no second judgement: after each the store is sound again, which is proved. Relies on questions,
// tree_check (the marks), requests (pieces read, answers written), query, edit, maintain and rename.

#![tactic(auto)]

ghost use Rattle.std.specs.Prelude.{◌≡◌, ◌+◌, ◌≤◌, true, length};
ghost use Rattle.image.specs.Image.{whole_nodes};
ghost use Rattle.image.specs.Sound.{sound};
ghost use Rattle.image.specs.Batch.{BatchMeets};
ghost use Rattle.requests.specs.Pieces.{change_is, query_is, query_most, requests_left};
ghost use Rattle.batch.specs.Served.{Fresh, Served, Written, Turned, Batching};

use edit::Terms;
use image::Refusal;
use requests::{Change, Piece, Pieces, Query};
use tree_check::marks;

// What a batch answers: 0, or the number of the first question with a no; how many calls were done; how many bytes of answers were written.
#[derive(Clone, Copy)]
pub struct Batched {
    pub number: u32,
    pub done: usize,
    pub written: usize,
}

// The call of a request that changes the store or keeps it up. The marks of the judgement are stale after the first change: move, settle, flush and heal
// mark the nodes anew, in the room that is lent, and put, drop and clear are lent none, as edit makes its own where it needs some.
fn make_change(
    store: &mut [u8],
    work: &mut [u8],
    seen: &mut [u8; 1024],
    change: Change,
    waiting: usize,
) -> Result<(), Refusal>
    requires { Fresh store.old work.old }
    ensures { Served store.old work.old (change_is change.entry) result store.new work.new }
{
    let terms = Terms {
        waiting,
        marks: None,
    };
    match change {
        Change::Put(path, value) => edit::put_fit(store, work, path, value, terms),
        Change::Drop(path) => edit::drop_fit(store, work, path, terms),
        Change::Clear(path) => edit::clear_fit(store, work, path, terms),
        Change::Move(from, to) => {
            let quiet = marks::mark_nodes(store, seen);
            rename::move_fit(store, work, quiet, seen, from, to)
        }
        Change::Settle => {
            let quiet = marks::mark_nodes(store, seen);
            maintain::settle_fit(store, work, quiet)
        }
        Change::Tidy => maintain::tidy_fit(store, work),
        Change::Flush(node) => {
            marks::mark_nodes(store, seen);
            maintain::flush_fit(store, work, seen, node)
        }
        Change::Heal(node) => {
            marks::mark_nodes(store, seen);
            maintain::heal_fit(store, work, seen, node)
        }
    }
}

// The call of a request that reads, and its answer at a place; answers the place behind that.
fn answer_query(store: &[u8], query: Query, answers: &mut [u8], at: usize) -> usize
    requires { (whole_nodes (length store.now) ≡ true) × (sound store.now ≡ true) × (at + query_most query ≤ length answers.old) }
    ensures { Written store.now (query_is query.entry) answers.old at answers.new result }
{
    let mut buffer = [0u8; 64];
    let found = match query {
        Query::Get(path) => query::get_fit(store, path, &mut buffer),
        Query::Next(path, after) => query::next_fit(store, path, after, &mut buffer),
    };
    requests::write_found(answers, at, found, &buffer)
}

// Whether a change fills or empties the root itself, so that more may wait there before it. A flush or a heal may do neither.
fn changes_root(change: Change) -> bool {
    !matches!(change, Change::Flush(_) | Change::Heal(_))
}

// Whether such a change is among the pieces left.
fn changes_later(mut pieces: Pieces) -> bool {
    pieces.any(|piece| matches!(piece, Piece::Change(change) if changes_root(change)))
}

// How many messages may wait in the root after a change that these pieces follow: after the last one of a list as many as after a single call,
// for the next call's judgement; after one that others follow more, by the nodes, as nothing is judged between them and a rebuild costs by the nodes.
// But where the last one is refused, or has no room for its answer, these are what the next call finds. Only speed depends on it, so that nothing is
// promised. It looks ahead from such a change up to the next one and no further, so that each piece is read twice at most.
fn waiting_of(change: Change, later: Pieces, nodes: usize) -> usize {
    if !changes_root(change) {
        return 0;
    }
    if changes_later(later) {
        return edit::WAITING + nodes / 64;
    }
    edit::WAITING
}

// The next piece carried out, and its answer written at a place, where it is certain to fit: the place behind that. Else the batch stops.
fn take_turn(
    store: &mut [u8],
    work: &mut [u8],
    seen: &mut [u8; 1024],
    pieces: &mut Pieces,
    answers: &mut [u8],
    written: usize,
) -> Option<usize>
    requires { Fresh store.old work.old × (written ≤ length answers.old) }
    ensures { Turned store.old work.old (requests_left pieces.old) answers.old written
        store.new work.new (requests_left pieces.new) answers.new result }
{
    let room = answers.len() - written;
    match pieces.next()? {
        Piece::Change(change) => {
            if room < requests::ANSWER_HEAD {
                return None;
            }
            let waiting = waiting_of(change, *pieces, store.len() / image::NODE_SIZE);
            let outcome = make_change(store, work, seen, change, waiting);
            Some(requests::write_outcome(answers, written, outcome))
        }
        Piece::Query(query) => {
            if room < requests::most_bytes(query) {
                return None;
            }
            Some(answer_query(store, query, answers, written))
        }
    }
}

// Turn after turn, on a store and a work area that are fit; `seen` is room for marks.
fn run(
    store: &mut [u8],
    work: &mut [u8],
    seen: &mut [u8; 1024],
    calls: &[u8],
    answers: &mut [u8],
) -> Batched
    requires { Fresh store.old work.old }
    ensures { Batching store.old work.old calls.now answers.old result store.new work.new answers.new }
{
    let mut pieces = Pieces { rest: calls };
    let mut done = 0;
    let mut written = 0;
    while let Some(behind) = take_turn(store, work, seen, &mut pieces, answers, written) {
        written = behind;
        done += 1;
    }
    Batched {
        number: 0,
        done,
        written,
    }
}

// A list of calls, judged once.
pub fn batch(store: &mut [u8], work: &mut [u8], calls: &[u8], answers: &mut [u8]) -> Batched
    ensures { BatchMeets store.old work.old calls.now answers.old result.number result.done result.written
        store.new work.new answers.new }
{
    let mut seen = [0u8; 1024];
    match questions::ask(store, work, &mut seen) {
        Err(refusal) => Batched {
            number: u32::from(refusal),
            done: 0,
            written: 0,
        },
        Ok(_) => {
            questions::zero_area(work, store.len() / image::NODE_SIZE);
            run(store, work, &mut seen, calls, answers)
        }
    }
}
