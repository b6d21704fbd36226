// put, drop and clear: each is one message at the root, appended, held by a new root above, or added after a rebuild, which leaves room; a clear of
// all makes the store anew. A call is questions 1 and 2, its part on a store that is fit (put_fit, drop_fit, clear_fit), and the work area zeroed. Relies
// on: questions, path (3), lookup, live_count (counts), tree_check (marks, where none are lent), append (the message), rebuild, make, node (node 0).

#![tactic(auto)]

ghost use Rattle.std.specs.Prelude.{◌≡◌, true, ◌+◌, ◌≤◌, length};
ghost use Rattle.image.specs.Table.{without};
ghost use Rattle.image.specs.Image.{nodes_of, whole_nodes, entries_limit};
ghost use Rattle.image.specs.Sound.{sound, table_of, sound_message, lowest, highest};
ghost use Rattle.laws.specs.ButLive.{sound_but_live};
ghost use Rattle.edit.specs.Free.{FirstFree};
ghost use Rattle.image.specs.Calls.{acts, put, drops, clear};
ghost use Rattle.image.specs.Contract.{Meets};
ghost use Rattle.image.specs.Answers.{outcome_answer};
ghost use Rattle.questions.specs.Acted.{Passed, Acted};
ghost use Rattle.append.specs.Laws.Append.{room_at_root, Appended};
ghost use Rattle.image.specs.Entry as defined;
ghost use Rattle.laws.specs.Encode.{bytes_of};
ghost use Rattle.node.specs.Lent.{message_is};
ghost use Rattle.octets.specs.Cap.{cap};
ghost use Rattle.edit.specs.Change.{Sized, Allowed};
ghost use Rattle.edit.specs.Known.{Known, Counts, CountWith};
ghost use Rattle.edit.specs.Room.{Above, AloneWith, MarkedWhere, Fits, Roomy, spare};
ghost use Rattle.edit.specs.Edited.{Edited};

use image::Refusal;
use node::entries::Message;

// So many messages wait in the root at most after a call: each costs every later judgement, and a rebuild that comes sooner is cheaper. A batch,
// which judges once, keeps to it by its last change.
pub const WAITING: usize = 8;

// Bytes that a root without messages must have left for those to come, else a new root goes above it; specs/Room has them as `spare`.
const SPARE: usize = 400;

// On what terms a change is made: how many messages may wait in the root after it, and the marks of the store's nodes in use, where they are known. They
// are not inside a batch, whose changes make those of question 2 stale.
#[derive(Clone, Copy)]
pub struct Terms<'a> {
    pub waiting: usize,
    pub marks: Option<&'a [u8; 1024]>,
}

// The terms of a call by itself, which has asked questions 1 and 2.
fn alone(marks: &[u8; 1024]) -> Terms
    ensures { AloneWith marks.now result }
{
    Terms {
        waiting: WAITING,
        marks: Some(marks),
    }
}

// A change that the questions allow: its message, how many paths there are after it, where that is known, and its terms.
#[derive(Clone, Copy)]
struct Edit<'a> {
    message: Message<'a>,
    count: Option<usize>,
    terms: Terms<'a>,
}

// The least number of a node that is not marked.
fn first_free(seen: &[u8; 1024], n: usize) -> Option<usize>
    requires { n ≤ 1024 }
    ensures { FirstFree seen.now n result }
{
    for i in 1..n {
        if seen[i] == 0 {
            return Some(i);
        }
    }
    None
}

// A free node for a new root above the old one, in which so many messages wait: none where there are any, no level is left, or no node is free. Where
// no marks are lent, it marks into an array of its own.
fn free_above(store: &[u8], marks: Option<&[u8; 1024]>, waiting: usize) -> Option<usize>
    requires { (whole_nodes (length store.now) ≡ true) × (sound store.now ≡ true) × MarkedWhere marks store.now }
    ensures { Above store.now result }
{
    if waiting != 0 {
        return None;
    }
    if 7 < node::header::read_levels(store) {
        return None;
    }
    let n = store.len() / image::NODE_SIZE;
    if let Some(seen) = marks {
        return first_free(seen, n);
    }
    let mut own = [0u8; 1024];
    tree_check::marks::mark_nodes(store, &mut own);
    first_free(&own, n)
}

// Whether a message of this size goes to the root, where so many wait and so many may. Nothing but speed depends on how many do, so that only a yes
// is promised to have room.
fn goes_at_root(store: &[u8], size: usize, waiting: usize, most: usize) -> bool
    requires { (sound store.now ≡ true) × (size + spare ≤ entries_limit) }
    ensures { result ≡ true → room_at_root store.now size ≡ true }
{
    if waiting == 0 {
        return append::fits_at_root(store, size + SPARE);
    }
    if most <= waiting {
        return false;
    }
    append::fits_at_root(store, size)
}

// Makes room for a message of this size: in the root, or in a free node for a new root, which it gives. After a rebuild a new root goes above the packed
// one even where that has room: it holds one branch, so that as many messages fit there as may wait. A packed tree takes no node from a quarter of
// them on.
fn make_room(store: &mut [u8], work: &mut [u8], size: usize, terms: Terms) -> Option<usize>
    requires { Passed store.old work.old × (size + spare ≤ entries_limit) × MarkedWhere terms.marks store.old }
    ensures { Roomy store.old store.new work.old work.new size result }
{
    let waiting = append::waiting_at_root(store);
    if goes_at_root(store, size, waiting, terms.waiting) {
        return None;
    }
    if let Some(free) = free_above(store, terms.marks, waiting) {
        return Some(free);
    }
    rebuild::rebuild(store, work);
    Some(store.len() / image::NODE_SIZE / 4)
}

// How many bytes the entry of a message has.
fn entry_size(message: Message) -> usize
    requires { Sized (message_is message) }
    ensures { result ≡ length (bytes_of (defined.message (message_is message.entry))) }
{
    match message {
        Message::Put(path, value) => 6 + path.len() + value.len(),
        Message::Drop(path) => 4 + path.len(),
        Message::Clear(path) => 4 + path.len(),
    }
}

// A message where there is room for it: in the root, or in a free node that becomes the root.
fn add(store: &mut [u8], free: Option<usize>, message: Message)
    requires { (whole_nodes (length store.old) ≡ true)
        × (sound store.old ≡ true)
        × (sound_message lowest highest (message_is message) ≡ true)
        × Sized (message_is message)
        × Fits store.old (length (bytes_of (defined.message (message_is message)))) free }
    ensures { Appended store.old (message_is message.entry) store.new }
{
    match free {
        None => append::append(store, message),
        Some(node) => append::raise(store, node, message),
    }
}

// How many paths there are once a path has a value, by one lookup.
fn count_with(store: &[u8], path: &[u8]) -> usize
    requires { (whole_nodes (length store.now) ≡ true) × (sound store.now ≡ true) }
    ensures { CountWith path.now (table_of store.now) result }
{
    let live = node::header::read_live(store);
    match lookup::value_of(store, path) {
        Some(_) => live,
        None => live + 1,
    }
}

// How many paths there are once a path is absent, by one lookup.
fn count_without(store: &[u8], path: &[u8]) -> usize
    requires { (whole_nodes (length store.now) ≡ true) × (sound store.now ≡ true) }
    ensures { result ≡ length (without path.now (table_of store.now)) }
{
    let live = node::header::read_live(store);
    match lookup::value_of(store, path) {
        Some(_) => live - 1,
        None => live,
    }
}

// How many paths there are: as is known, or counted.
fn live_paths(store: &[u8], known: Option<usize>) -> usize
    requires { (sound_but_live store.now ≡ true)
        × (length (table_of store.now) ≤ nodes_of (length store.now))
        × (whole_nodes (length store.now) ≡ true)
        × Counts known (length (table_of store.now)) }
    ensures { result ≡ cap (length (table_of store.now)) }
{
    match known {
        Some(count) => count,
        None => live_count::count_paths(store),
    }
}

// A change that the questions allow: room for its message, the message, the live count.
fn apply_change(store: &mut [u8], work: &mut [u8], edit: Edit)
    requires { Passed store.old work.old
        × MarkedWhere edit.terms.marks store.old
        × Allowed (message_is edit.message) (table_of store.old) (nodes_of (length store.old))
        × Known (message_is edit.message) (table_of store.old) edit.count }
    ensures { Edited store.old store.new work.old work.new (message_is edit.entry.message) }
{
    let free = make_room(store, work, entry_size(edit.message), edit.terms);
    add(store, free, edit.message);
    let live = live_paths(store, edit.count);
    append::set_live(store, live);
}

// put, on a store and a work area that are fit. Question 10 asks whether there is a node for each path.
pub fn put_fit(
    store: &mut [u8],
    work: &mut [u8],
    path: &[u8],
    value: &[u8],
    terms: Terms,
) -> Result<(), Refusal>
    requires { Passed store.old work.old × MarkedWhere terms.marks store.old }
    ensures { Acted store.old (acts (put path.now value.now) work.old) result store.new work.old work.new }
{
    if !path::is_path(path) {
        return Err(Refusal::Malformed);
    }
    if image::VALUE_LIMIT < value.len() {
        return Err(Refusal::LongValue);
    }
    let count = count_with(store, path);
    if store.len() / image::NODE_SIZE < count {
        return Err(Refusal::Full);
    }
    let edit = Edit {
        message: Message::Put(path, value),
        count: Some(count),
        terms,
    };
    apply_change(store, work, edit);
    Ok(())
}

// The path has this value.
pub fn put(store: &mut [u8], work: &mut [u8], path: &[u8], value: &[u8]) -> Result<(), Refusal>
    ensures { Meets store.old (acts (put path.now value.now) work.old) (outcome_answer result) store.new work.new }
{
    let mut seen = [0u8; 1024];
    questions::ask(store, work, &mut seen)?;
    put_fit(store, work, path, value, alone(&seen))?;
    questions::zero_area(work, store.len() / image::NODE_SIZE);
    Ok(())
}

// drop, likewise.
pub fn drop_fit(store: &mut [u8], work: &mut [u8], path: &[u8], terms: Terms) -> Result<(), Refusal>
    requires { Passed store.old work.old × MarkedWhere terms.marks store.old }
    ensures { Acted store.old (acts (drops path.now) work.old) result store.new work.old work.new }
{
    if !path::is_path(path) {
        return Err(Refusal::Malformed);
    }
    let count = count_without(store, path);
    let edit = Edit {
        message: Message::Drop(path),
        count: Some(count),
        terms,
    };
    apply_change(store, work, edit);
    Ok(())
}

// The path is absent.
pub fn drop(store: &mut [u8], work: &mut [u8], path: &[u8]) -> Result<(), Refusal>
    ensures { Meets store.old (acts (drops path.now) work.old) (outcome_answer result) store.new work.new }
{
    let mut seen = [0u8; 1024];
    questions::ask(store, work, &mut seen)?;
    drop_fit(store, work, path, alone(&seen))?;
    questions::zero_area(work, store.len() / image::NODE_SIZE);
    Ok(())
}

// clear, likewise. Every path is below the empty one: then the store is as one just made. Else it is not known how many paths there are below the
// given one.
pub fn clear_fit(
    store: &mut [u8],
    work: &mut [u8],
    path: &[u8],
    terms: Terms,
) -> Result<(), Refusal>
    requires { Passed store.old work.old × MarkedWhere terms.marks store.old }
    ensures { Acted store.old (acts (clear path.now) work.old) result store.new work.old work.new }
{
    if path.len() == 0 {
        make::write_empty(store);
        return Ok(());
    }
    if !path::is_path(path) {
        return Err(Refusal::Malformed);
    }
    let edit = Edit {
        message: Message::Clear(path),
        count: None,
        terms,
    };
    apply_change(store, work, edit);
    Ok(())
}

// Every path below the given one, which may be empty, is absent.
pub fn clear(store: &mut [u8], work: &mut [u8], path: &[u8]) -> Result<(), Refusal>
    ensures { Meets store.old (acts (clear path.now) work.old) (outcome_answer result) store.new work.new }
{
    let mut seen = [0u8; 1024];
    questions::ask(store, work, &mut seen)?;
    clear_fit(store, work, path, alone(&seen))?;
    questions::zero_area(work, store.len() / image::NODE_SIZE);
    Ok(())
}
