// A store made ready for the swing of a move: settled, a level left for the new root, and its free nodes listed. Where it is not so, it is rebuilt
// first, and then it always is. Relies on questions (what 1 and 2 leave), swing's spare (the free nodes from the marks of those in use), rebuild
// (which leaves the upper nodes free), packed (numbers listed) and node (the levels).
ghost use Rattle.std.specs.Prelude.{◌≡◌, ◌-◌, ◌/◌, ◌≤◌, length};
ghost use Rattle.image.specs.Upkeep.{settled};
ghost use Rattle.packed.specs.Form.Packed.{numbers_from};
ghost use Rattle.packed.specs.Build.Handed.{listed};
ghost use Rattle.tree_check.specs.Whole.{Marks};
ghost use Rattle.questions.specs.Acted.{Passed};
ghost use Rattle.rename.specs.Prepare.Prepared.{may_swing, Prepared};

// Whether the swing goes: no message waits, a level is left, and enough nodes are free.
pub fn may_swing(quiet: bool, levels: usize, free: usize) -> bool
    ensures { result ≡ may_swing quiet levels free }
{
    if !quiet {
        return false;
    }
    if 7 < levels {
        return false;
    }
    10 * levels + 1 <= free
}

// The nodes from a quarter of the n on, which a rebuild leaves free; answers how many there are.
fn list_upper(n: usize, numbers: &mut [u16; 1024]) -> usize
    requires { n ≤ 1024 }
    ensures { (result ≡ n - n / 4) × (listed result numbers.new 0 ≡ numbers_from (n / 4) (n - n / 4)) }
{
    let low = n / 4;
    let count = n - low;
    packed::count_numbers(&mut numbers[..count], low);
    count
}

// Makes the store ready and lists free nodes, enough for the swing; answers how many. `quiet` tells whether no message waits.
pub fn make_ready(
    store: &mut [u8],
    work: &mut [u8],
    quiet: bool,
    seen: &[u8; 1024],
    numbers: &mut [u16; 1024],
) -> usize
    requires { Passed store.old work.old × Marks store.old seen.now × (quiet ≡ settled store.old) }
    ensures { Prepared store.old store.new work.old work.new numbers.new result }
{
    let free = swing::spare::free_list(seen, store.len() / image::NODE_SIZE, numbers);
    let levels = node::header::read_levels(store);
    if may_swing(quiet, levels, free) {
        return free;
    }
    rebuild::rebuild(store, work);
    list_upper(store.len() / image::NODE_SIZE, numbers)
}
