// Question 2 whole: is the image sound? The tree by one marking walk, then the live count: with no message anywhere it is the number of pairs, which
// the walk has counted; else one more walk counts the entries that decide. Relies on tree_check (the first walk), live_count (the second) and node.

#![tactic(auto)]

ghost use Rattle.std.specs.Prelude.{◌≡◌, true, length};
ghost use Rattle.image.specs.Image.{whole_nodes};
ghost use Rattle.image.specs.Sound.{sound};
ghost use Rattle.soundness.specs.Judged.{Judged};

use tree_check::Tally;

// The verdict on an image. Where it is sound: how many pairs, messages and nodes there are, and in `seen` which nodes are reached.
pub fn judge(store: &[u8], seen: &mut [u8; 1024]) -> Option<Tally>
    requires { whole_nodes (length store.now) ≡ true }
    ensures { Judged store.now result seen.new }
{
    let tally = tree_check::check_tree(store, seen)?;
    let live = if tally.messages == 0 {
        tally.pairs
    } else {
        live_count::count_paths(store)
    };
    if live != node::header::read_live(store) {
        return None;
    }
    Some(tally)
}

// Whether an image is sound.
pub fn is_sound(store: &[u8]) -> bool
    requires { whole_nodes (length store.now) ≡ true }
    ensures { result ≡ sound store.now }
{
    judge(store, &mut [0; 1024]).is_some()
}
