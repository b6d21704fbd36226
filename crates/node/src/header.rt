// The numbers of node 0 and those in front of a node's entries, each by its name; a node is told by the place where it begins.
// Relies on image's places of these numbers and on octets, which reads one.
ghost use Rattle.std.specs.Prelude.{◌≡◌, ◌+◌, ◌<◌, length};
ghost use Rattle.image.specs.Bytes.{u16};

// How many nodes node 0 says that there are.
pub fn read_count(store: &[u8]) -> usize
    requires { 5 < length store.now }
    ensures { (result ≡ u16 store.now 4) × (result < 65536) }
{
    octets::u16_at(store, image::COUNT_AT)
}

// The number of the root.
pub fn read_root(store: &[u8]) -> usize
    requires { 7 < length store.now }
    ensures { (result ≡ u16 store.now 6) × (result < 65536) }
{
    octets::u16_at(store, image::ROOT_AT)
}

// How many levels the tree has.
pub fn read_levels(store: &[u8]) -> usize
    requires { 9 < length store.now }
    ensures { (result ≡ u16 store.now 8) × (result < 65536) }
{
    octets::u16_at(store, image::LEVELS_AT)
}

// How many paths node 0 says that there are.
pub fn read_live(store: &[u8]) -> usize
    requires { 11 < length store.now }
    ensures { (result ≡ u16 store.now 10) × (result < 65536) }
{
    octets::u16_at(store, image::LIVE_AT)
}

// How many bytes of entries the node at a place has.
pub fn read_length(store: &[u8], at: usize) -> usize
    requires { at + 1 < length store.now }
    ensures { (result ≡ u16 store.now at) × (result < 65536) }
{
    octets::u16_at(store, at)
}

// The kind of the node at a place.
pub fn read_kind(store: &[u8], at: usize) -> usize
    requires { at + 3 < length store.now }
    ensures { (result ≡ u16 store.now (at + 2)) × (result < 65536) }
{
    octets::u16_at(store, at + image::KIND_AT)
}

// The level of the node at a place.
pub fn read_level(store: &[u8], at: usize) -> usize
    requires { at + 5 < length store.now }
    ensures { (result ≡ u16 store.now (at + 4)) × (result < 65536) }
{
    octets::u16_at(store, at + image::LEVEL_AT)
}
