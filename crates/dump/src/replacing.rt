// Puts of the root that go into the rows of its children, oldest first, where the root's messages are all puts: no message is held against another
// entry then. Relies on the readers of nodes (node, live_count), on packed and on insertion (a row set by its path).
ghost use Rattle.std.specs.Prelude.{◌≡◌, []};
ghost use Rattle.node.specs.Lent.{left_of};
ghost use Rattle.dump.specs.Insertion.Insertion.{Laid, laid};
ghost use Rattle.dump.specs.Replacing.{only_puts, put_among, Unset};

use crate::insertion;
use live_count::visibility;
use node::entries::{Entries, Entry, Message};
use packed::rows::Row;

// Whether every message among entries is a put.
pub fn only_puts(entries: Entries) -> bool
    ensures { result ≡ only_puts (left_of entries.entry) }
{
    for entry in entries {
        let Entry::Message(message) = entry else {
            continue;
        };
        let Message::Put(_, _) = message else {
            return false;
        };
    }
    true
}

// The puts among entries put into the `m` rows of the area: a path's value is replaced in its row, and the rows of new paths are gathered behind,
// rising too. Gives how many rows there are then.
pub fn set_puts(area: &mut [u8], m: usize, entries: Entries) -> usize
    requires { Unset area.old m m (left_of entries) }
    ensures { Laid m area.old area.new result (put_among [] (left_of entries.entry) (laid area.old m m)) }
{
    let mut all = m;
    for entry in entries {
        let Some((key, value)) = visibility::put_of(entry) else {
            continue;
        };
        let row = Row { path: key, value };
        all = insertion::set_row(area, m, all, row);
    }
    all
}
