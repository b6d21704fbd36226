// get, next, same and check: the calls that read a store. Each asks the paper's questions in order; a refusal changes no byte. get_fit and next_fit
// are the parts from question 3 on, for a store that is known to be sound. Relies on: node (question 1, the live count), soundness (2), path (3),
// lookup and successor for what is found, octets for its copy, inclusion for same.

#![tactic(auto)]

ghost use Rattle.std.specs.Prelude.{◌≡◌, true, [], ◌≤◌, length};
ghost use Rattle.image.specs.Path.{value_limit, path_limit};
ghost use Rattle.image.specs.Image.{whole_nodes, most_nodes};
ghost use Rattle.image.specs.Calls.{asks, get, next};
ghost use Rattle.image.specs.Sound.{sound, table_of};
ghost use Rattle.image.specs.Contract.{Meets, same_keys, SameMeets, check_no, CheckMeets};
ghost use Rattle.image.specs.Answers.{outcome_number, found_answer, sameness_number, sameness_verdict, verdict_number, verdict_paths};
ghost use Rattle.query.specs.Asked.{paths_fit, found_length};

use image::Refusal;

// Questions 1 and 2 of a call that is lent no work area.
#[tactic(auto, unfolding(image::specs::Contract::check_no, image::specs::Calls::first_no, image::specs::Answers::outcome_number, image::specs::Answers::refusal_number))]
fn judge_store(store: &[u8]) -> Result<(), Refusal>
    ensures { outcome_number result ≡ check_no store.now }
{
    if !node::whole_nodes(store.len()) {
        return Err(Refusal::Length); // question 1
    }
    if !soundness::is_sound(store) {
        return Err(Refusal::Unsound); // question 2
    }
    Ok(())
}

// get, on a store that is fit.
pub fn get_fit(store: &[u8], path: &[u8], buffer: &mut [u8]) -> Result<usize, Refusal>
    requires { (whole_nodes (length store.now) ≡ true) × (sound store.now ≡ true) }
    ensures meets { Meets store.now (asks (get path.now) buffer.old) (found_answer result buffer.new) store.now [] }
    ensures short { found_length result ≤ value_limit }
{
    if !path::is_path(path) {
        return Err(Refusal::Malformed);
    }
    if buffer.len() < image::VALUE_LIMIT {
        return Err(Refusal::ShortBuffer);
    }
    let Some(value) = lookup::value_of(store, path) else {
        return Err(Refusal::Absent); // the path has no value
    };
    octets::copy_at(buffer, 0, value);
    Ok(value.len())
}

// The value of a path, at the front of the buffer.
pub fn get(store: &[u8], path: &[u8], buffer: &mut [u8]) -> Result<usize, Refusal>
    ensures meets { Meets store.now (asks (get path.now) buffer.old) (found_answer result buffer.new) store.now [] }
    ensures short { found_length result ≤ path_limit }
{
    judge_store(store)?;
    get_fit(store, path, buffer)
}

// Whether next's paths are well formed; each may be empty.
#[tactic(auto, unfolding(crate::specs::Asked::paths_fit))]
fn paths_fit(path: &[u8], after: &[u8]) -> bool
    ensures { result ≡ paths_fit (next path.now after.now) }
{
    path::is_path_or_empty(path) && path::is_path_or_empty(after)
}

// next, on a store that is fit.
pub fn next_fit(
    store: &[u8],
    path: &[u8],
    after: &[u8],
    buffer: &mut [u8],
) -> Result<usize, Refusal>
    requires { (whole_nodes (length store.now) ≡ true) × (sound store.now ≡ true) }
    ensures meets { Meets store.now (asks (next path.now after.now) buffer.old) (found_answer result buffer.new) store.now [] }
    ensures short { found_length result ≤ path_limit }
{
    if !paths_fit(path, after) {
        return Err(Refusal::Malformed);
    }
    if buffer.len() < image::PATH_LIMIT {
        return Err(Refusal::ShortBuffer);
    }
    let Some(found) = successor::next_path(store, path, after) else {
        return Err(Refusal::Absent);
    };
    let next = found.as_slice();
    octets::copy_at(buffer, 0, next);
    Ok(next.len())
}

// The least path below the first and greater than the second, at the front of the buffer.
pub fn next(store: &[u8], path: &[u8], after: &[u8], buffer: &mut [u8]) -> Result<usize, Refusal>
    ensures meets { Meets store.now (asks (next path.now after.now) buffer.old) (found_answer result buffer.new) store.now [] }
    ensures short { found_length result ≤ path_limit }
{
    judge_store(store)?;
    next_fit(store, path, after, buffer)
}

// Whether two sound stores hold the same paths: as many, and each path of the one is in the other.
fn same_paths(store: &[u8], other: &[u8]) -> bool
    requires { (sound store.now ≡ true) × (sound other.now ≡ true) }
    ensures { result ≡ same_keys (table_of store.now) (table_of other.now) }
{
    let live = node::header::read_live(store);
    let others = node::header::read_live(other);
    if live != others {
        return false;
    }
    inclusion::is_included(store, other)
}

// Whether two stores hold the same paths.
#[tactic(auto, unfolding(image::specs::Contract::same_no, image::specs::Contract::same_at, image::specs::Calls::first_no, image::specs::Answers::sameness_number, image::specs::Answers::sameness_verdict, image::specs::Answers::refusal_number))]
pub fn same(store: &[u8], other: &[u8]) -> Result<bool, Refusal>
    ensures { SameMeets store.now other.now (sameness_number result) (sameness_verdict result) }
{
    if !(node::whole_nodes(store.len()) && node::whole_nodes(other.len())) {
        return Err(Refusal::Length);
    }
    if !(soundness::is_sound(store) && soundness::is_sound(other)) {
        return Err(Refusal::Unsound);
    }
    Ok(same_paths(store, other))
}

// Whether a store is a sound image, and how many paths it holds.
pub fn check(store: &[u8]) -> Result<usize, Refusal>
    ensures check_meets { CheckMeets store.now (verdict_number result) (verdict_paths result) }
    ensures few { verdict_paths result ≤ most_nodes }
{
    if !node::whole_nodes(store.len()) {
        return Err(Refusal::Length);
    }
    if !soundness::is_sound(store) {
        return Err(Refusal::Unsound); // no image to count in
    }
    let live = node::header::read_live(store);
    Ok(live)
}
