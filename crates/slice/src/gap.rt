// The chain of empty nodes that stands where a range was cut out: one node a level, the deepest written first. The pivots are whole here: each node
// of the chain has the same. Relies on node's page and on octets; specs/Moving's `gap_write` says what is written.
ghost use Rattle.std.specs.Prelude.{◌≡◌};
ghost use Rattle.slice.specs.Moving.GapWrite.{gap_write};
ghost use Rattle.slice.specs.Point.{fresh_in};
ghost use Rattle.slice.specs.GapSteps.{GapAsks};

use node::entries::Entry;
use node::page::Page;

pub fn write_gap(store: &mut [u8], level: usize, lo: &[u8], hi: &[u8], at: usize, free: &[u16])
    requires { GapAsks store.old level lo.now at free.now }
    ensures { store.new ≡ gap_write (fresh_in free.now) level lo.now hi.now at store.old }
{
    let new = free[at] as usize;
    let mut page = Page::new();
    if level <= 1 {
        page.write(store, new, image::LEAF, 1);
        return;
    }
    let child = free[at + 1] as usize;
    let d = octets::common_length(lo, hi);
    page.push(Entry::Child(child, &lo[d..]));
    write_gap(store, level - 1, lo, hi, at + 1, free);
    page.write(store, new, image::INTERIOR, level);
}
