// The page of a node that is being written: entries, one behind the other, on zeros; and the page as a node of a store. Relies on writer, which lays
// out an entry and the first bytes of a page, on octets, which copies, and on std, whose Model lets contracts see what a page holds.
ghost use Rattle.std.specs.Prelude.{◌≡◌, ◌+◌, ◌*◌, ◌<◌, ◌≤◌, [], ◌++◌, length, take, drop};
ghost use Rattle.image.specs.Entry.{pair, child};
ghost use Rattle.laws.specs.Encode.{bytes_of};
ghost use Rattle.laws.specs.Page.{page};
ghost use Rattle.laws.specs.WriteNode.{write_node};
ghost use Rattle.node.specs.Lent.{entry_is, Small};

use crate::entries::Entry;
use crate::writer;
use std::marker::Model;

// Seen as the bytes of its entries.
#[derive(Drop)]
pub struct Page {
    bytes: [u8; 1024],
    len: usize,
}

impl Model for Page {
    ghost use Rattle.std.specs.Prelude.{List, ℕ};
    ghost use Rattle.node.specs.Content.{content, Holds};

    ghost Value = { List ℕ };

    ghost view = { λ p. content p.bytes p.len };

    ghost invariant = { λ p. Holds p.bytes p.len };
}

impl Page {
    // A page with no entries.
    pub fn new() -> Page
        ensures { result ≡ [] }
    {
        Page {
            bytes: [0; 1024],
            len: 0,
        }
    }

    // How many bytes its entries have.
    pub fn len(&self) -> usize
        ensures { result ≡ length self.now }
    {
        self.len
    }

    // An entry behind the others.
    pub fn push(&mut self, entry: Entry)
        requires { (length self.old + length (bytes_of (entry_is entry)) ≤ 1016) × Small (entry_is entry) }
        ensures { self.new ≡ self.old ++ bytes_of (entry_is entry.entry) }
    {
        let end = writer::write_entry(&mut self.bytes, image::ENTRIES_AT + self.len, entry);
        self.len = end - image::ENTRIES_AT;
    }

    // A pair behind the others, with more bytes in front of its suffix.
    pub fn push_longer_pair(&mut self, more: &[u8], key: &[u8], value: &[u8])
        requires { length self.old + length (bytes_of (pair (more.now ++ key.now) value.now)) ≤ 1016 }
        ensures { self.new ≡ self.old ++ bytes_of (pair (more.now ++ key.now) value.now) }
    {
        let at = image::ENTRIES_AT + self.len;
        let end = writer::write_longer_pair(&mut self.bytes, at, more, key, value);
        self.len = end - image::ENTRIES_AT;
    }

    // A child behind the others, with more bytes in front of its pivot.
    pub fn push_longer_child(&mut self, number: usize, more: &[u8], pivot: &[u8])
        requires { (length self.old + length (bytes_of (child number (more.now ++ pivot.now))) ≤ 1016) × (number < 65536) }
        ensures { self.new ≡ self.old ++ bytes_of (child number (more.now ++ pivot.now)) }
    {
        let at = image::ENTRIES_AT + self.len;
        let end = writer::write_longer_child(&mut self.bytes, at, number, more, pivot);
        self.len = end - image::ENTRIES_AT;
    }

    // Entries behind the others, as their bytes.
    pub fn copy(&mut self, entries: &[u8])
        requires { length self.old + length entries.now ≤ 1016 }
        ensures { self.new ≡ self.old ++ entries.now }
    {
        octets::copy_at(&mut self.bytes, image::ENTRIES_AT + self.len, entries);
        self.len += entries.len();
    }

    // The page as a node of the store, of this kind and level.
    #[inline(always)] // as write_page
    pub fn write(&self, store: &mut [u8], num: usize, kind: usize, level: usize)
        requires { (num * 1024 + 1024 ≤ length store.old) × (kind < 65536) × (level < 65536) }
        ensures { store.new ≡ write_node store.old num (page kind level self.now) }
    {
        writer::write_page(store, num, &self.bytes, kind, level, self.len);
    }
}
