// Questions 1 and 2 of every call that is lent a work area: are store and work area long enough, and is the image sound? And what such a call
// needs at its end: the work area zeroed. The calls that change a store ask this first.
// Relies on node (question 1), soundness (question 2), tree_check (what its walk counted), laws and packed (the area).

#![tactic(auto)]

ghost use Rattle.std.specs.Prelude.{◌≡◌, ◌*◌, ◌≤◌, length};
ghost use Rattle.questions.specs.Asked.{Asked};
ghost use Rattle.rebuild.specs.Rebuild.{cleared};

use image::Refusal;
use tree_check::Tally;

// Asks both questions, in order. Where both are a yes it answers what the check of the image has counted, and `seen` has 1 for each node that is
// reached and 0 for the others.
pub fn ask(store: &[u8], work: &[u8], seen: &mut [u8; 1024]) -> Result<Tally, Refusal>
    ensures { Asked store.now work.now seen.new result }
{
    if !node::whole_nodes(store.len()) {
        return Err(Refusal::Length);
    }
    if work.len() < image::WORK_PER_NODE * (store.len() / image::NODE_SIZE) {
        return Err(Refusal::Length);
    }
    soundness::judge(store, seen).ok_or(Refusal::Unsound)
}

// The end of an accepted call on a store of n nodes: its part of the work area is left zero.
#[tactic(auto, unfolding(laws::specs::Page::zeros_of))]
pub fn zero_area(work: &mut [u8], n: usize)
    requires { (128 * n ≤ length work.old) × (n ≤ 1024) }
    ensures { work.new ≡ cleared n work.old }
{
    packed::clear_area(work, image::WORK_PER_NODE * n);
}
