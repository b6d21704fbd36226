// The end of a move: the live count, counted anew, is written, and the work area zeroed. Its laws serve the other calls that change the map.
// Relies on live_count (the count), append (the count written) and packed (the area zeroed).

#![tactic(auto)]

ghost use Rattle.std.specs.Prelude.{◌≡◌, true, ◌*◌, ◌≤◌, length};
ghost use Rattle.image.specs.Image.{nodes_of, whole_nodes};
ghost use Rattle.image.specs.Sound.{table_of};
ghost use Rattle.image.specs.Calls.{work_per_node};
ghost use Rattle.octets.specs.Cap.{cap};
ghost use Rattle.laws.specs.ButLive.{sound_but_live};
ghost use Rattle.finish.specs.Finished.{Finished};

// This live count written, and the work area zeroed.
fn conclude(store: &mut [u8], work: &mut [u8], live: usize)
    requires { (whole_nodes (length store.old) ≡ true)
        × (sound_but_live store.old ≡ true)
        × (length (table_of store.old) ≤ nodes_of (length store.old))
        × (work_per_node * nodes_of (length store.old) ≤ length work.old)
        × (live ≡ cap (length (table_of store.old))) }
    ensures { Finished store.old store.new work.old work.new }
{
    append::set_live(store, live);
    let k = image::WORK_PER_NODE * (store.len() / image::NODE_SIZE);
    packed::clear_area(work, k);
}

// The live count made right, and the work area zeroed.
pub fn finish(store: &mut [u8], work: &mut [u8])
    requires { (whole_nodes (length store.old) ≡ true)
        × (sound_but_live store.old ≡ true)
        × (length (table_of store.old) ≤ nodes_of (length store.old))
        × (work_per_node * nodes_of (length store.old) ≤ length work.old) }
    ensures { Finished store.old store.new work.old work.new }
{
    let live = live_count::count_paths(store);
    conclude(store, work, live);
}
