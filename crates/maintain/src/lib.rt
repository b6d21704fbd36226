// settle, tidy, flush and heal: each asks the paper's questions in order; a refusal changes no byte, and an accepted call leaves the first 128 bytes
// for each node of the work area zero. settle_fit, tidy_fit, flush_fit and heal_fit are the parts after questions 1 and 2. Relies on questions (1 and
// 2), node (question 6), rebuild (the same map in packed form, with no message), push (a flush), merge (a heal) and packed (the area zeroed).

#![tactic(auto)]

ghost use Rattle.std.specs.Prelude.{◌≡◌, true, length};
ghost use Rattle.image.specs.Image.{whole_nodes};
ghost use Rattle.image.specs.Sound.{sound};
ghost use Rattle.image.specs.Upkeep.{reachable_nodes, reachable_at, settled};
ghost use Rattle.image.specs.Calls.{acts, settle, tidy, keeps, flush, heal};
ghost use Rattle.image.specs.Contract.{is_interior, Meets};
ghost use Rattle.image.specs.Answers.{outcome_answer};
ghost use Rattle.tree_check.specs.Whole.{Marks};
ghost use Rattle.questions.specs.Acted.{Passed};
ghost use Rattle.maintain.specs.Upkept.{Upkept, Upheld};

use image::Refusal;

// Ends an accepted call. Where the store already is as the call asks, only the work area is cleared; else the store is rebuilt.
fn rebuild_unless(done: bool, store: &mut [u8], work: &mut [u8])
    requires { Passed store.old work.old }
    ensures { Upkept done store.old store.new work.old work.new }
{
    if done {
        let len = image::WORK_PER_NODE * (store.len() / image::NODE_SIZE);
        packed::clear_area(work, len);
        return;
    }
    rebuild::rebuild(store, work);
}

// settle, on a store and a work area that are fit; `done` tells whether no message waits.
pub fn settle_fit(store: &mut [u8], work: &mut [u8], done: bool) -> Result<(), Refusal>
    requires { Passed store.old work.old × (done ≡ settled store.old) }
    ensures { Meets store.old (acts settle work.old) (outcome_answer result) store.new work.new }
{
    rebuild_unless(done, store, work);
    Ok(())
}

// Leaves no message in any node; where none waits, the store stays as it is.
pub fn settle(store: &mut [u8], work: &mut [u8]) -> Result<(), Refusal>
    ensures { Meets store.old (acts settle work.old) (outcome_answer result) store.new work.new }
{
    let mut seen = [0u8; 1024];
    let tally = questions::ask(store, work, &mut seen)?;
    settle_fit(store, work, tally.messages == 0)
}

// tidy, on a store and a work area that are fit.
pub fn tidy_fit(store: &mut [u8], work: &mut [u8]) -> Result<(), Refusal>
    requires { Passed store.old work.old }
    ensures { Meets store.old (acts tidy work.old) (outcome_answer result) store.new work.new }
{
    rebuild_unless(false, store, work);
    Ok(())
}

// Leaves no message in any node, and at most a quarter of the nodes in use.
pub fn tidy(store: &mut [u8], work: &mut [u8]) -> Result<(), Refusal>
    ensures { Meets store.old (acts tidy work.old) (outcome_answer result) store.new work.new }
{
    let mut seen = [0u8; 1024];
    questions::ask(store, work, &mut seen)?;
    tidy_fit(store, work)
}

// Question 6: whether the number is that of a reachable interior node. `seen` has the marks of the nodes in use.
pub fn is_interior(store: &[u8], seen: &[u8; 1024], node: usize) -> bool
    requires { (whole_nodes (length store.now) ≡ true) × (sound store.now ≡ true) × Marks store.now seen.now }
    ensures { result ≡ is_interior (reachable_at node (reachable_nodes store.now)) }
{
    if store.len() / image::NODE_SIZE <= node {
        return false;
    }
    if seen[node] != 1 {
        return false;
    }
    node::header::read_kind(store, node * image::NODE_SIZE) == image::INTERIOR
}

// The act of a flush: the messages of a node go to its children, where there is room for all of them; else a rebuild sends down those of
// every node.
fn act_flush(store: &mut [u8], work: &mut [u8], node: usize)
    requires { Passed store.old work.old × (is_interior (reachable_at node (reachable_nodes store.old)) ≡ true) }
    ensures { Upheld flush node store.old store.new work.old work.new }
{
    let pushed = push::push_down(store, node);
    rebuild_unless(pushed, store, work);
}

// flush, on a store and a work area that are fit; `seen` has the marks of the nodes in use.
pub fn flush_fit(
    store: &mut [u8],
    work: &mut [u8],
    seen: &[u8; 1024],
    node: usize,
) -> Result<(), Refusal>
    requires { Passed store.old work.old × Marks store.old seen.now }
    ensures { Meets store.old (keeps flush node work.old) (outcome_answer result) store.new work.new }
{
    if !is_interior(store, seen, node) {
        return Err(Refusal::NotInterior);
    }
    act_flush(store, work, node);
    Ok(())
}

// Leaves no message in the nodes of this node's level that own any of what it owned.
pub fn flush(store: &mut [u8], work: &mut [u8], node: usize) -> Result<(), Refusal>
    ensures { Meets store.old (keeps flush node work.old) (outcome_answer result) store.new work.new }
{
    let mut seen = [0u8; 1024];
    questions::ask(store, work, &mut seen)?;
    flush_fit(store, work, &seen, node)
}

// The act of a heal: the children of a node are joined where two neighbours fit in one node.
fn act_heal(store: &mut [u8], work: &mut [u8], node: usize)
    requires { Passed store.old work.old × (is_interior (reachable_at node (reachable_nodes store.old)) ≡ true) }
    ensures { Upheld heal node store.old store.new work.old work.new }
{
    merge::mend_children(store, node);
    rebuild_unless(true, store, work);
}

// heal, on a store and a work area that are fit; `seen` has the marks of the nodes in use.
pub fn heal_fit(
    store: &mut [u8],
    work: &mut [u8],
    seen: &[u8; 1024],
    node: usize,
) -> Result<(), Refusal>
    requires { Passed store.old work.old × Marks store.old seen.now }
    ensures { Meets store.old (keeps heal node work.old) (outcome_answer result) store.new work.new }
{
    if !is_interior(store, seen, node) {
        return Err(Refusal::NotInterior);
    }
    act_heal(store, work, node);
    Ok(())
}

// Leaves the node with its range, no node with a message more, and no two neighbouring children of it that would fit in one node.
pub fn heal(store: &mut [u8], work: &mut [u8], node: usize) -> Result<(), Refusal>
    ensures { Meets store.old (keeps heal node work.old) (outcome_answer result) store.new work.new }
{
    let mut seen = [0u8; 1024];
    questions::ask(store, work, &mut seen)?;
    heal_fit(store, work, &seen, node)
}
