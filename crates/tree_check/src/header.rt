// The headers of nodes: whether node 0 is as the length of the store asks for, and whether a node is laid out as one of a kind and level.
// Relies on node's reader of headers and on octets; what a node's entries say is node_check's matter.
ghost use Rattle.std.specs.Prelude.{◌≡◌, ◌≤◌, length};
ghost use Rattle.image.specs.Bytes.{zeros};
ghost use Rattle.image.specs.Image.{nodes_of, node_bytes, laid_out};
ghost use Rattle.laws.specs.ButLive.{sound_head};
ghost use Rattle.node.specs.Whole.{HasNode};

// How many nodes the store has room for.
pub fn node_count(store: &[u8]) -> usize
    ensures { result ≡ nodes_of (length store.now) }
{
    store.len() / image::NODE_SIZE
}

// Whether every byte is zero: whether the largest is. No byte ends the loop, so that many are read at once.
pub fn all_zero(bytes: &[u8]) -> bool
    ensures { result ≡ zeros bytes.now }
{
    let mut most: u8 = 0;
    for &byte in bytes {
        most = most.max(byte);
    }
    most == 0
}

// Whether a node of the store is laid out as one of this kind and level.
pub fn laid_out(store: &[u8], num: usize, kind: usize, level: usize) -> bool
    requires { HasNode store.now num }
    ensures { result ≡ laid_out kind level (node_bytes store.now num) }
{
    let at = num * image::NODE_SIZE;
    let len = node::header::read_length(store, at);
    if image::ENTRIES_LIMIT < len {
        return false;
    }
    if node::header::read_kind(store, at) != kind {
        return false;
    }
    if node::header::read_level(store, at) != level {
        return false;
    }
    if octets::u16_at(store, at + 6) != 0 {
        return false;
    }
    all_zero(&store[at + image::ENTRIES_AT + len..at + image::NODE_SIZE])
}

// Whether node 0 is laid out, and its numbers are in the range that a store of this length asks for.
pub fn header_good(store: &[u8]) -> bool
    requires { 1024 ≤ length store.now }
    ensures { result ≡ sound_head store.now }
{
    let n = node_count(store);
    let len = node::header::read_length(store, 0);
    let kind = node::header::read_kind(store, 0);
    let count = node::header::read_count(store);
    let root = node::header::read_root(store);
    let levels = node::header::read_levels(store);
    let live = node::header::read_live(store);
    if len != 8 {
        return false;
    }
    if kind != image::HEADER {
        return false;
    }
    if count != n {
        return false;
    }
    if root < 1 {
        return false;
    }
    if n <= root {
        return false;
    }
    if levels < 1 {
        return false;
    }
    if 8 < levels {
        return false;
    }
    if n < live {
        return false;
    }
    all_zero(&store[12..image::NODE_SIZE])
}
