// The entries of a node, read one by one from its bytes: an iterator, whose items lend the bytes that stand in them. It ends where the bytes end or
// where no entry reads. Relies on octets, header and the numbers of image.
ghost use Rattle.std.specs.Prelude.{◌≡◌, ◌+◌, ◌*◌, MatchOption};
ghost use Rattle.image.specs.Bytes.{u16};
ghost use Rattle.image.specs.Meaning.{says_of};
ghost use Rattle.node.specs.Cut.{cut};
ghost use Rattle.node.specs.Entries.{listed};
ghost use Rattle.node.specs.Whole.{HasNode};
ghost use Rattle.node.specs.Lent.{message_is, entry_is, left_of, said_is, Unkeyed, Keyed, Unread, Leads, NotOf, IsOf};

use crate::header;

// A message: the suffix of its path, and a put's value.
#[derive(Clone, Copy)]
pub enum Message<'a> {
    Put(&'a [u8], &'a [u8]),
    Drop(&'a [u8]),
    Clear(&'a [u8]),
}

// An entry: a pair's suffix and value, a child's number and pivot, or a message.
#[derive(Clone, Copy)]
pub enum Entry<'a> {
    Pair(&'a [u8], &'a [u8]),
    Child(usize, &'a [u8]),
    Message(Message<'a>),
}

impl<'a> Message<'a> {
    // What the message says of a rest: nothing, or that it is gone, or the value that it has.
    #[tactic(auto, unfolding(image::specs::Meaning::says_of))]
    pub fn says(self, rest: &[u8]) -> Option<Option<&'a [u8]>>
        ensures { said_is result ≡ says_of (message_is self.entry) rest.now }
    {
        match self {
            Message::Put(key, value) => {
                if octets::equal(key, rest) {
                    Some(Some(value))
                } else {
                    None
                }
            }
            Message::Drop(key) => {
                if octets::equal(key, rest) {
                    Some(None)
                } else {
                    None
                }
            }
            Message::Clear(key) => {
                if octets::begins_with(key, rest) {
                    Some(None)
                } else {
                    None
                }
            }
        }
    }
}

// The bytes of the entries that are still to be read.
#[derive(Clone, Copy)]
pub struct Entries<'a> {
    pub rest: &'a [u8],
}

// The suffix and the value in bytes that are u16 suffix length, suffix, value.
pub fn split_keyed(bytes: &[u8]) -> Option<(&[u8], &[u8])>
    ensures { MatchOption result (Unkeyed bytes.now) (λ p. Keyed bytes.now p.0.now p.1.now) }
{
    let (head, body) = bytes.split_at_checked(2)?;
    let (key, value) = body.split_at_checked(octets::u16_at(head, 0))?;
    Some((key, value))
}

// The node's number and the pivot of a child.
fn split_child(bytes: &[u8]) -> Option<Entry>
    ensures { MatchOption result (NotOf 16 bytes.now) (λ e. IsOf 16 bytes.now e) }
{
    let (head, pivot) = bytes.split_at_checked(2)?;
    if image::PIVOT_LIMIT < pivot.len() {
        return None;
    }
    Some(Entry::Child(octets::u16_at(head, 0), pivot))
}

// The entry of a kind with this body. It and the two below are always inlined: out of line an entry goes through memory, and a walk takes up to a third
// more instructions, on RISC-V twice as many.
#[inline(always)]
fn entry_of(kind: usize, body: &[u8]) -> Option<Entry>
    ensures { MatchOption result (NotOf kind body.now) (λ e. IsOf kind body.now e) }
{
    match kind {
        image::PAIR => {
            let (key, value) = split_keyed(body)?;
            Some(Entry::Pair(key, value))
        }
        image::CHILD => split_child(body),
        image::PUT => {
            let (key, value) = split_keyed(body)?;
            Some(Entry::Message(Message::Put(key, value)))
        }
        image::DROP => Some(Entry::Message(Message::Drop(body))),
        image::CLEAR => Some(Entry::Message(Message::Clear(body))),
        _ => None,
    }
}

// The entry that bytes begin with, and the bytes behind it.
#[inline(always)]
pub fn read_entry(bytes: &[u8]) -> Option<(Entry, &[u8])>
    ensures { MatchOption result (Unread bytes.now) (λ p. Leads bytes.now p.0 p.1.now) }
{
    let (head, rest) = bytes.split_at_checked(4)?;
    let (body, behind) = rest.split_at_checked(octets::u16_at(head, 0))?;
    let entry = entry_of(octets::u16_at(head, 2), body)?;
    Some((entry, behind))
}

impl<'a> Entries<'a> {
    // The entries of a node of the store; of a length that goes past the store's end, as far as the store goes.
    #[tactic(auto, unfolding(crate::specs::Entries::listed))]
    pub fn of_node(store: &'a [u8], num: usize) -> Entries<'a>
        requires { HasNode store.now num }
        ensures bytes { result.rest.now ≡ cut store.now (num * 1024 + 8) (num * 1024 + 8 + u16 store.now (num * 1024)) }
        ensures lists { left_of result ≡ listed store.now (num * 1024 + 8) (num * 1024 + 8 + u16 store.now (num * 1024)) }
    {
        let base = num * image::NODE_SIZE;
        let start = base + image::ENTRIES_AT;
        let stop = store.len().min(start + header::read_length(store, base));
        Entries {
            rest: &store[start..stop],
        }
    }
}

impl<'a> Iterator for Entries<'a> {
    ghost use Rattle.std.specs.Iterator.{YieldsFirstBy, item_count};

    type Item = Entry<'a>;

    ghost next_gives = { YieldsFirstBy entry_is left_of };

    ghost remaining = { item_count left_of };

    #[inline(always)]
    fn next(&mut self) -> Option<Entry<'a>> {
        let (entry, behind) = read_entry(self.rest)?;
        self.rest = behind;
        Some(entry)
    }
}
