// The rebuild of a store in packed form: every row of the map is dumped, rising, into the work area, and the packed tree is built from
// the rows over the same store. Relies on `dump` and `packed`; the caller has checked that the store is sound.

#![tactic(auto)]

ghost use Rattle.std.specs.Prelude.{◌≡◌, true, ◌*◌, ◌≤◌, length, replicate};
ghost use Rattle.image.specs.Image.{nodes_of, whole_nodes};
ghost use Rattle.image.specs.Sound.{sound, table_of};
ghost use Rattle.image.specs.Calls.{work_per_node};
ghost use Rattle.packed.specs.Rows.Area.{rows_of};
ghost use Rattle.rebuild.specs.Rebuild.{Repacked, Packable, Rebuilt};

// The packed form of the first `m` rows of the area over the store, its nodes numbered from 1; `numbers` is room for the numbers.
fn pack(store: &mut [u8], area: &mut [u8], m: usize, numbers: &mut [u16])
    requires { Packable store.old area.old m numbers.old }
    ensures { Repacked store.old store.new (rows_of m area.old 0) }
{
    packed::count_numbers(numbers, 1);
    packed::build(store, area, m, numbers);
}

// The rebuild in a work area of exactly the size that it needs.
fn rebuild_in(store: &mut [u8], area: &mut [u8])
    requires { (whole_nodes (length store.old) ≡ true) × (sound store.old ≡ true) × (length area.old ≡ 128 * nodes_of (length store.old)) }
    ensures { Repacked store.old store.new (table_of store.old) × (area.new ≡ replicate (128 * nodes_of (length store.old)) 0) }
{
    let m = dump::dump(store, area);
    // A packed tree has fewer nodes than a quarter of the store, so that all from there on are free.
    let mut numbers = [0u16; 256];
    let count = store.len() / image::NODE_SIZE / 4 - 1;
    pack(store, area, m, &mut numbers[..count]);
    let len = area.len();
    packed::clear_area(area, len);
}

// The same map in packed form: settled, and at most a quarter of the nodes in use.
pub fn rebuild(store: &mut [u8], work: &mut [u8])
    requires { (whole_nodes (length store.old) ≡ true) × (sound store.old ≡ true) × (work_per_node * nodes_of (length store.old) ≤ length work.old) }
    ensures { Rebuilt store.old store.new work.old work.new }
{
    let k = image::WORK_PER_NODE * (store.len() / image::NODE_SIZE);
    rebuild_in(store, &mut work[0..k]);
}
