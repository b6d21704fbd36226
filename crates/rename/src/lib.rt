// move: what is below one path comes below another (document 003 calls it a range rename). Questions in order, then the swing of a store made ready
// for it. A refusal changes no byte; an accepted move zeroes the first 128 bytes for each node of the work area. Relies on questions (1 and 2), going
// (the later ones), prepare (a settled store with free nodes), swing (the act) and finish (the live count).

#![tactic(auto)]

pub mod asks;
pub mod going;
pub mod prepare;

ghost use Rattle.std.specs.Prelude.{◌≡◌};
ghost use Rattle.image.specs.Upkeep.{settled};
ghost use Rattle.image.specs.Calls.{acts, move};
ghost use Rattle.image.specs.Contract.{Meets};
ghost use Rattle.image.specs.Answers.{outcome_answer};
ghost use Rattle.tree_check.specs.Whole.{Marks};
ghost use Rattle.questions.specs.Acted.{Passed};
ghost use Rattle.rename.specs.Apply.{Differ};

use going::Going;
use image::Refusal;

// The act of an accepted move of two paths that differ.
fn apply_move(
    store: &mut [u8],
    work: &mut [u8],
    quiet: bool,
    seen: &[u8; 1024],
    from: &[u8],
    to: &[u8],
)
    requires { Differ store.old work.old from.now to.now seen.now quiet }
    ensures { Meets store.old (acts (move from.now to.now) work.old) (outcome_answer (Ok tt)) store.new work.new }
{
    let mut numbers = [0u16; 1024];
    let count = prepare::make_ready(store, work, quiet, seen, &mut numbers);
    swing::swing(store, &numbers[..count], from, to);
    finish::finish(store, work);
}

// move, on a store and a work area that are fit; `quiet` tells whether no message waits, and `seen` has the marks of the nodes in use.
pub fn move_fit(
    store: &mut [u8],
    work: &mut [u8],
    quiet: bool,
    seen: &[u8; 1024],
    from: &[u8],
    to: &[u8],
) -> Result<(), Refusal>
    requires { Passed store.old work.old × Marks store.old seen.now × (quiet ≡ settled store.old) }
    ensures { Meets store.old (acts (move from.now to.now) work.old) (outcome_answer result) store.new work.new }
{
    let going = going::ask_later(store, from, to)?;
    match going {
        Going::Stays => questions::zero_area(work, store.len() / image::NODE_SIZE),
        Going::Goes => apply_move(store, work, quiet, seen, from, to),
    }
    Ok(())
}

// The path to + rest has what from + rest had; all else below `to`, and everything below `from`, is absent.
pub fn move_paths(store: &mut [u8], work: &mut [u8], from: &[u8], to: &[u8]) -> Result<(), Refusal>
    ensures { Meets store.old (acts (move from.now to.now) work.old) (outcome_answer result) store.new work.new }
{
    let mut seen = [0u8; 1024];
    let tally = questions::ask(store, work, &mut seen)?;
    move_fit(store, work, tally.messages == 0, &seen, from, to)
}
