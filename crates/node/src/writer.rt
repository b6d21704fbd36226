// The writer of the format: how an entry, the first bytes of a node's page and node 0 are laid out is said here, and nowhere else.
// An entry goes into a page of 1,024 bytes or straight into a store. Relies on octets; laws' Encode and Page have the bytes, specs/Writer and
// specs/Pages the steps.
ghost use Rattle.std.specs.Prelude.{◌≡◌, [], ◌++◌, ◌+◌, ◌*◌, ◌/◌, ◌<◌, ◌≤◌, length};
ghost use Rattle.image.specs.Bytes.{u16_bytes};
ghost use Rattle.image.specs.Entry.{pair, child, message};
ghost use Rattle.laws.specs.Encode.{bytes_of, keyed_entry, short_entry, head_bytes};
ghost use Rattle.laws.specs.Page.{page, head_page};
ghost use Rattle.laws.specs.WriteNode.{write_node};
ghost use Rattle.octets.specs.Put.{put};
ghost use Rattle.node.specs.Whole.{HasNode};
ghost use Rattle.node.specs.Lent.{entry_is, message_is, Small};

use crate::entries::{Entry, Message};

// The first bytes of the entry of a pair, a put or a child: the length of its rest, its kind, and the number that its rest begins with.
fn write_head(page: &mut [u8], at: usize, rest: usize, kind: usize, first: usize)
    requires { (at + 6 ≤ length page.old)
        × (length page.old ≤ 2000000)
        × (rest < 65536)
        × (kind < 65536)
        × (first < 65536) }
    ensures { page.new ≡ put page.old at (head_bytes rest kind first) }
{
    octets::put_u16(page, at, rest);
    octets::put_u16(page, at + 2, kind);
    octets::put_u16(page, at + 4, first);
}

// An entry of a suffix and a value: a pair or a put. Gives the place behind it.
pub fn write_keyed(page: &mut [u8], at: usize, kind: usize, key: &[u8], value: &[u8]) -> usize
    requires { (at + (6 + length key.now + length value.now) ≤ length page.old)
        × (length page.old ≤ 2000000)
        × (length key.now + length value.now ≤ 1024)
        × (kind < 65536) }
    ensures { (page.new ≡ put page.old at (keyed_entry kind key.now value.now))
        × (result ≡ at + (6 + length key.now + length value.now)) }
{
    let n = key.len();
    let k = value.len();
    write_head(page, at, 2 + n + k, kind, n);
    octets::copy_at(page, at + 6, key);
    octets::copy_at(page, at + 6 + n, value);
    at + (6 + n + k)
}

// An entry of a suffix alone: a drop or a clear. Gives the place behind it.
pub fn write_short(page: &mut [u8], at: usize, kind: usize, key: &[u8]) -> usize
    requires { (at + (4 + length key.now) ≤ length page.old)
        × (length page.old ≤ 2000000)
        × (length key.now ≤ 1024)
        × (kind < 65536) }
    ensures { (page.new ≡ put page.old at (short_entry kind key.now))
        × (result ≡ at + (4 + length key.now)) }
{
    let n = key.len();
    octets::put_u16(page, at, n);
    octets::put_u16(page, at + 2, kind);
    octets::copy_at(page, at + 4, key);
    at + (4 + n)
}

// An entry of a child: its node's number and its pivot's suffix. Gives the place behind it.
pub fn write_child(page: &mut [u8], at: usize, number: usize, suffix: &[u8]) -> usize
    requires { (at + (6 + length suffix.now) ≤ length page.old)
        × (length page.old ≤ 2000000)
        × (length suffix.now ≤ 1024)
        × (number < 65536) }
    ensures { (page.new ≡ put page.old at (bytes_of (child number suffix.now)))
        × (result ≡ at + (6 + length suffix.now)) }
{
    let n = suffix.len();
    write_head(page, at, 2 + n, image::CHILD, number);
    octets::copy_at(page, at + 6, suffix);
    at + (6 + n)
}

// The entry of a message. Gives the place behind it.
pub fn write_message(page: &mut [u8], at: usize, given: Message) -> usize
    requires { (at + length (bytes_of (message (message_is given))) ≤ length page.old)
        × (length page.old ≤ 2000000)
        × (length (bytes_of (message (message_is given))) ≤ 1024) }
    ensures { (page.new ≡ put page.old at (bytes_of (message (message_is given.entry))))
        × (result ≡ at + length (bytes_of (message (message_is given.entry)))) }
{
    match given {
        Message::Put(key, value) => write_keyed(page, at, image::PUT, key, value),
        Message::Drop(key) => write_short(page, at, image::DROP, key),
        Message::Clear(key) => write_short(page, at, image::CLEAR, key),
    }
}

// Any entry. Gives the place behind it.
pub fn write_entry(page: &mut [u8], at: usize, entry: Entry) -> usize
    requires { (at + length (bytes_of (entry_is entry)) ≤ length page.old)
        × (length page.old ≤ 2000000)
        × (length (bytes_of (entry_is entry)) ≤ 1024)
        × Small (entry_is entry) }
    ensures { (page.new ≡ put page.old at (bytes_of (entry_is entry.entry)))
        × (result ≡ at + length (bytes_of (entry_is entry.entry))) }
{
    match entry {
        Entry::Pair(key, value) => write_keyed(page, at, image::PAIR, key, value),
        Entry::Child(number, pivot) => write_child(page, at, number, pivot),
        Entry::Message(message) => write_message(page, at, message),
    }
}

// The entry of a pair with more bytes in front of its suffix. Gives the place behind it.
pub fn write_longer_pair(page: &mut [u8], at: usize, more: &[u8], key: &[u8], value: &[u8]) -> usize
    requires { (at + length (bytes_of (pair (more.now ++ key.now) value.now)) ≤ length page.old) × (length page.old ≤ 1024) }
    ensures { (page.new ≡ put page.old at (bytes_of (pair (more.now ++ key.now) value.now)))
        × (result ≡ at + length (bytes_of (pair (more.now ++ key.now) value.now))) }
{
    let n = more.len() + key.len();
    let k = value.len();
    write_head(page, at, 2 + n + k, image::PAIR, n);
    octets::copy_at(page, at + 6, more);
    octets::copy_at(page, at + 6 + more.len(), key);
    octets::copy_at(page, at + 6 + n, value);
    at + (6 + n + k)
}

// The entry of a child with more bytes in front of its pivot. Gives the place behind it.
pub fn write_longer_child(
    page: &mut [u8],
    at: usize,
    number: usize,
    more: &[u8],
    key: &[u8],
) -> usize
    requires { (at + length (bytes_of (child number (more.now ++ key.now))) ≤ length page.old) × (length page.old ≤ 1024) × (number < 65536) }
    ensures { (page.new ≡ put page.old at (bytes_of (child number (more.now ++ key.now))))
        × (result ≡ at + length (bytes_of (child number (more.now ++ key.now)))) }
{
    let n = more.len() + key.len();
    write_head(page, at, 2 + n, image::CHILD, number);
    octets::copy_at(page, at + 6, more);
    octets::copy_at(page, at + 6 + more.len(), key);
    at + (6 + n)
}

// A page as a node of the store, with its first bytes: the size of its entries, its kind and its level.
#[inline(always)] // where LLVM sees that the page is no part of the store, it copies the page at once
pub fn write_page(store: &mut [u8], num: usize, page: &[u8], kind: usize, level: usize, size: usize)
    requires { (num * 1024 + 1024 ≤ length store.old) × (length page.now ≡ 1024) × (kind < 65536) × (level < 65536) × (size < 65536) }
    ensures { store.new
        ≡ put store.old (num * 1024) (put (put (put page.now 0 (u16_bytes size)) 2 (u16_bytes kind)) 4 (u16_bytes level)) }
{
    let at = num * image::NODE_SIZE;
    octets::copy_at(store, at, page);
    octets::put_u16(store, at, size);
    octets::put_u16(store, at + image::KIND_AT, kind);
    octets::put_u16(store, at + image::LEVEL_AT, level);
}

// A leaf with no pairs.
pub fn write_empty_leaf(store: &mut [u8], num: usize)
    requires { HasNode store.old num × (length store.old ≤ 2000000) }
    ensures { store.new ≡ write_node store.old num (page 1 1 []) }
{
    let page = [0u8; 1024];
    write_page(store, num, &page, image::LEAF, 1, 0);
}

// Node 0 of a store: how many nodes there are, the root, the levels, and how many paths are live.
pub fn write_header(store: &mut [u8], root: usize, levels: usize, live: usize)
    requires { (1024 ≤ length store.old)
        × (length store.old ≤ 2000000)
        × (root < 65536)
        × (levels < 65536)
        × (live < 65536) }
    ensures { store.new ≡ write_node store.old 0 (head_page (length store.old / 1024) root levels live) }
{
    let mut page = [0u8; 1024];
    octets::put_u16(&mut page, 0, 8);
    octets::put_u16(&mut page, image::KIND_AT, image::HEADER);
    octets::put_u16(&mut page, image::COUNT_AT, store.len() / image::NODE_SIZE);
    octets::put_u16(&mut page, image::ROOT_AT, root);
    octets::put_u16(&mut page, image::LEVELS_AT, levels);
    octets::put_u16(&mut page, image::LIVE_AT, live);
    octets::copy_at(store, 0, &page);
}
