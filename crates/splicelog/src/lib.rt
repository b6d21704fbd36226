// The calls for C, whose prototypes stand in include/splicelog.h. Each hands its slices to the call of the same name and turns the answer
// into numbers. Relies on: make, query, edit, rename, maintain and batch for the calls; requests for the numbers of answers.

#![tactic(auto)]

ghost use Rattle.std.specs.Prelude.{◌≤◌, ◌<◌, ◌/◌, ◌%◌, ◌≡◌, []};
ghost use Rattle.image.specs.Answers.{refusal_limit, sameness_number, sameness_verdict};
ghost use Rattle.image.specs.Calls.{asks, get, next, filled, acts, keeps, put, drops, clear, move, settle, tidy, flush, heal, number};
ghost use Rattle.image.specs.Contract.{Meets, MakeMeets, SameMeets, CheckMeets};
ghost use Rattle.image.specs.Batch.{BatchMeets};
ghost use Rattle.query.specs.Asked.{found_length};
ghost use Rattle.splicelog.specs.Words.{found_number, Holds};
ghost use Rattle.splicelog.specs.BatchWord.{answers_room, answers_used, answers_left};

use batch::Batched;
use image::Refusal;

// The number in the low 32 bits, what stands beside it in the high 32.
fn word(number: u32, beside: usize) -> u64
    requires { beside < 4294967296 }
    ensures { Holds result number beside }
{
    number as u64 + 4294967296 * (beside as u64)
}

// The word of an answer: its number, with a length or a count beside it.
#[tactic(auto, unfolding(crate::specs::Words::found_number, query::specs::Asked::found_length))]
fn answer_word(answer: Result<usize, Refusal>) -> u64
    requires { found_length answer < 4294967296 }
    ensures { Holds result (found_number answer) (found_length answer) }
{
    match answer {
        Ok(beside) => word(0, beside),
        Err(refusal) => word(u32::from(refusal), 0),
    }
}

#[tactic(auto, unfolding(image::specs::Answers::sameness_number, image::specs::Answers::sameness_verdict))]
fn sameness_word(sameness: Result<bool, Refusal>) -> u64
    ensures { Holds result (sameness_number sameness) (sameness_verdict sameness) }
{
    match sameness {
        Ok(same) => word(0, usize::from(same)),
        Err(refusal) => word(u32::from(refusal), 0),
    }
}

// How much of a buffer of this length a batch uses: what it answers then fits one word.
fn answers_room(len: usize) -> usize
    ensures { result ≡ answers_room len }
{
    if len <= 268435455 {
        return len;
    }
    268435455
}

// The number in the low 8 bits, the calls done in the next 28, the bytes written in the high 28.
fn batch_word(batched: Batched) -> u64
    requires { (batched.number ≤ refusal_limit) × (batched.done ≤ 268435455) × (batched.written ≤ 268435455) }
    ensures { (result % 256 ≡ batched.number) × (result / 256 % 268435456 ≡ batched.done) × (result / 68719476736 ≡ batched.written) }
{
    let done = batched.done as u64;
    let written = batched.written as u64;
    batched.number as u64 + 256 * done + 68719476736 * written
}

#[unsafe(no_mangle)]
pub extern "C" fn splicelog_make(store: &mut [u8]) -> u32
    ensures { MakeMeets store.old result store.new }
{
    requests::outcome_number(make::make(store))
}

#[unsafe(no_mangle)]
pub extern "C" fn splicelog_get(store: &[u8], path: &[u8], buffer: &mut [u8]) -> u64
    ensures { Meets store.now (asks (get path.now) buffer.old) (filled (result % 4294967296) (result / 4294967296) buffer.new) store.now [] }
{
    answer_word(query::get(store, path, buffer))
}

#[unsafe(no_mangle)]
pub extern "C" fn splicelog_next(store: &[u8], path: &[u8], after: &[u8], buffer: &mut [u8]) -> u64
    ensures { Meets store.now (asks (next path.now after.now) buffer.old)
        (filled (result % 4294967296) (result / 4294967296) buffer.new) store.now [] }
{
    answer_word(query::next(store, path, after, buffer))
}

#[unsafe(no_mangle)]
pub extern "C" fn splicelog_same(store: &[u8], other: &[u8]) -> u64
    ensures { SameMeets store.now other.now (result % 4294967296) (result / 4294967296) }
{
    sameness_word(query::same(store, other))
}

#[unsafe(no_mangle)]
pub extern "C" fn splicelog_check(store: &[u8]) -> u64
    ensures { CheckMeets store.now (result % 4294967296) (result / 4294967296) }
{
    answer_word(query::check(store))
}

#[unsafe(no_mangle)]
pub extern "C" fn splicelog_put(store: &mut [u8], work: &mut [u8], path: &[u8], value: &[u8]) -> u32
    ensures { Meets store.old (acts (put path.now value.now) work.old) (number result) store.new work.new }
{
    requests::outcome_number(edit::put(store, work, path, value))
}

#[unsafe(no_mangle)]
pub extern "C" fn splicelog_drop(store: &mut [u8], work: &mut [u8], path: &[u8]) -> u32
    ensures { Meets store.old (acts (drops path.now) work.old) (number result) store.new work.new }
{
    requests::outcome_number(edit::drop(store, work, path))
}

#[unsafe(no_mangle)]
pub extern "C" fn splicelog_clear(store: &mut [u8], work: &mut [u8], path: &[u8]) -> u32
    ensures { Meets store.old (acts (clear path.now) work.old) (number result) store.new work.new }
{
    requests::outcome_number(edit::clear(store, work, path))
}

#[unsafe(no_mangle)]
pub extern "C" fn splicelog_move(store: &mut [u8], work: &mut [u8], from: &[u8], to: &[u8]) -> u32
    ensures { Meets store.old (acts (move from.now to.now) work.old) (number result) store.new work.new }
{
    requests::outcome_number(rename::move_paths(store, work, from, to))
}

#[unsafe(no_mangle)]
pub extern "C" fn splicelog_settle(store: &mut [u8], work: &mut [u8]) -> u32
    ensures { Meets store.old (acts settle work.old) (number result) store.new work.new }
{
    requests::outcome_number(maintain::settle(store, work))
}

#[unsafe(no_mangle)]
pub extern "C" fn splicelog_tidy(store: &mut [u8], work: &mut [u8]) -> u32
    ensures { Meets store.old (acts tidy work.old) (number result) store.new work.new }
{
    requests::outcome_number(maintain::tidy(store, work))
}

#[unsafe(no_mangle)]
pub extern "C" fn splicelog_flush(store: &mut [u8], work: &mut [u8], node: usize) -> u32
    ensures { Meets store.old (keeps flush node work.old) (number result) store.new work.new }
{
    requests::outcome_number(maintain::flush(store, work, node))
}

#[unsafe(no_mangle)]
pub extern "C" fn splicelog_heal(store: &mut [u8], work: &mut [u8], node: usize) -> u32
    ensures { Meets store.old (keeps heal node work.old) (number result) store.new work.new }
{
    requests::outcome_number(maintain::heal(store, work, node))
}

#[unsafe(no_mangle)]
pub extern "C" fn splicelog_batch(
    store: &mut [u8],
    work: &mut [u8],
    calls: &[u8],
    answers: &mut [u8],
) -> u64
    ensures batch_meets { BatchMeets store.old work.old calls.now (answers_used answers.old)
        (result % 256) (result / 256 % 268435456) (result / 68719476736) store.new work.new (answers_used answers.new) }
    ensures behind { answers_left answers.new ≡ answers_left answers.old }
{
    let room = answers_room(answers.len());
    batch_word(batch::batch(store, work, calls, &mut answers[0..room]))
}
