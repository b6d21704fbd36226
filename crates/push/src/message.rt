// What an interior child takes: the messages that touch it, without what it lifts, behind its own entries.
// Relies on room, which says what an entry brings to a child, and on node's entries and page.
ghost use Rattle.std.specs.Prelude.{◌≡◌, true};
ghost use Rattle.node.specs.Lent.{left_of};
ghost use Rattle.push.specs.Laws.Written.{interior_takes, has_room};

use crate::room;
use node::branches::Branch;
use node::entries::{Entries, Entry};
use node::page::Page;

// An interior child takes what the entries of the node bring.
pub fn push_interior(store: &mut [u8], child: Branch, entries: Entries)
    requires { has_room (left_of entries) child.number child.low.now child.high.now store.old ≡ true }
    ensures { store.new ≡ interior_takes (left_of entries.entry) child.entry.number child.entry.low.now child.entry.high.now store.old }
{
    let level = node::header::read_level(store, child.number * image::NODE_SIZE);
    let mut page = Page::new();
    page.copy(Entries::of_node(store, child.number).rest);
    for entry in entries {
        if let Some(given) = room::brought(entry, child) {
            page.push(Entry::Message(given));
        }
    }
    page.write(store, child.number, image::INTERIOR, level);
}
