// The free nodes of a store, listed from the marks of the nodes in use, rising. Relies on no other code; the marks are those of tree_check, and
// specs/Spare joins them to the free nodes of slice/Moving.
ghost use Rattle.std.specs.Prelude.{◌≡◌, ◌-◌, ◌≤◌};
ghost use Rattle.packed.specs.Build.Handed.{listed};
ghost use Rattle.swing.specs.Spare.Spare.{unmarked};

// The numbers from 1 up to, not including, n whose mark is 0; answers how many there are.
pub fn free_list(seen: &[u8; 1024], n: usize, numbers: &mut [u16; 1024]) -> usize
    requires { n ≤ 1024 }
    ensures { (listed result numbers.new 0 ≡ unmarked (n - 1) 1 seen.now) × (result ≤ n) }
{
    let mut count = 0;
    for i in 1..n {
        if seen[i] == 0 {
            numbers[count] = i as u16;
            count += 1;
        }
    }
    count
}
