// A message at the root: appended where it has room, or held by a new root above the old one. The root lifts nothing, so a message there has the full
// path as its suffix. The laws of what is written are in specs/Laws.
// Relies on node (the header, the search, the writer, the page) and on octets (a number of two bytes).

#![tactic(auto)]

ghost use Rattle.std.specs.Prelude.{◌≡◌, true, ◌+◌, ◌*◌, ◌<◌, ◌≤◌, length};
ghost use Rattle.image.specs.Entry.{message};
ghost use Rattle.image.specs.Image.{whole_nodes, nodes_of, tree_of};
ghost use Rattle.laws.specs.Encode.{bytes_of};
ghost use Rattle.laws.specs.ButLive.{sound_but_live};
ghost use Rattle.node.specs.Lent.{message_is};
ghost use Rattle.append.specs.Laws.Append.{root_at, room_at_root, appended};
ghost use Rattle.append.specs.Laws.Raise.{root_raised};
ghost use Rattle.append.specs.Laws.SetLive.{with_live};
ghost use Rattle.append.specs.Waiting.{waiting};

use node::entries::{Entries, Entry, Message};
use node::page::Page;
use node::writer;

// Where the root's node begins.
pub fn root_at(store: &[u8]) -> usize
    requires { sound_but_live store.now ≡ true }
    ensures { (result ≡ root_at store.now) × (result + 1024 ≤ length store.now) }
{
    let root = node::header::read_root(store);
    root * image::NODE_SIZE
}

// Whether the root is an interior node with room for this many bytes of entries.
pub fn fits_at_root(store: &[u8], size: usize) -> bool
    requires { (sound_but_live store.now ≡ true) × (size ≤ 1016) }
    ensures { result ≡ room_at_root store.now size }
{
    let levels = node::header::read_levels(store);
    if levels < 2 {
        return false;
    }
    let at = root_at(store);
    let len = node::header::read_length(store, at);
    len + size <= image::ENTRIES_LIMIT
}

// A message after the root's others.
pub fn append(store: &mut [u8], given: Message)
    requires { (whole_nodes (length store.old) ≡ true)
        × (sound_but_live store.old ≡ true)
        × (room_at_root store.old (length (bytes_of (message (message_is given)))) ≡ true) }
    ensures { store.new ≡ appended store.old (message_is given.entry) }
{
    let at = root_at(store);
    let from = at + image::ENTRIES_AT;
    let len = node::header::read_length(store, at);
    let end = writer::write_message(store, from + len, given);
    octets::put_u16(store, at, end - from);
}

// A new root above the old one, with a message, in a free node.
pub fn raise(store: &mut [u8], free: usize, given: Message)
    requires { (whole_nodes (length store.old) ≡ true)
        × (sound_but_live store.old ≡ true)
        × (free < nodes_of (length store.old))
        × (length (bytes_of (message (message_is given))) ≤ 1010) }
    ensures { store.new ≡ root_raised store.old free (message_is given.entry) }
{
    let old = node::header::read_root(store);
    let levels = node::header::read_levels(store) + 1;
    let mut page = Page::new();
    page.push(Entry::Child(old, b""));
    page.push(Entry::Message(given));
    page.write(store, free, image::INTERIOR, levels);
    octets::put_u16(store, image::ROOT_AT, free);
    octets::put_u16(store, image::LEVELS_AT, levels);
}

// The live count of node 0.
pub fn set_live(store: &mut [u8], live: usize)
    requires { (12 ≤ length store.old) × (length store.old ≤ 2000000) × (live < 65536) }
    ensures { store.new ≡ with_live store.old live }
{
    octets::put_u16(store, image::LIVE_AT, live);
}

// How many messages the root holds.
pub fn waiting_at_root(store: &[u8]) -> usize
    requires { sound_but_live store.now ≡ true }
    ensures { result ≡ waiting (tree_of store.now) }
{
    let levels = node::header::read_levels(store);
    if levels < 2 {
        return 0;
    }
    let root = node::header::read_root(store);
    node::search::count_messages(Entries::of_node(store, root))
}
