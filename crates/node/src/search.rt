// What one node says of a path: its newest message on it, the pair of a leaf, the child that owns it; and whether it holds messages, and how many.
// Relies on entries, branches and octets; specs/Search joins each to its definition.
ghost use Rattle.std.specs.Prelude.{◌≡◌};
ghost use Rattle.node.specs.Lent.{left_of, value_is, said_is};
ghost use Rattle.node.specs.Spans.{pending_of};
ghost use Rattle.node.specs.Search.Own.{owner_of, owner_is};
ghost use Rattle.node.specs.Search.Latest.{newest_among};
ghost use Rattle.node.specs.Search.Messages.{has_message, messages_among};
ghost use Rattle.node.specs.Search.Pairs.{find_among};

use crate::branches::{Branch, Branches};
use crate::entries::{Entries, Entry};

// What the newest message on a rest says of it, of these entries.
pub fn newest<'a>(entries: Entries<'a>, rest: &[u8]) -> Option<Option<&'a [u8]>>
    ensures { said_is result ≡ newest_among (left_of entries.entry) rest.now }
{
    let mut latest = None;
    for entry in entries {
        let Entry::Message(message) = entry else {
            continue;
        };
        // Few messages say something of the rest: the latest is written for those alone.
        let Some(value) = message.says(rest) else {
            continue;
        };
        latest = Some(value);
    }
    latest
}

// Whether any of these entries is a message.
#[tactic(auto, unfolding(crate::specs::Search::Messages::has_message, crate::specs::Search::Messages::is_message))]
pub fn has_messages(entries: Entries) -> bool
    ensures { result ≡ has_message (left_of entries.entry) }
{
    for entry in entries {
        if let Entry::Message(_) = entry {
            return true;
        }
    }
    false
}

// How many messages these entries have.
#[tactic(auto, unfolding(crate::specs::Search::Messages::messages_among, crate::specs::Search::Messages::is_message))]
pub fn count_messages(entries: Entries) -> usize
    ensures { result ≡ messages_among (left_of entries.entry) }
{
    let mut count = 0;
    for entry in entries {
        if let Entry::Message(_) = entry {
            count += 1;
        }
    }
    count
}

// The value of a leaf's pair on a rest.
#[tactic(auto, unfolding(crate::specs::Search::Pairs::find_among))]
pub fn find<'a>(entries: Entries<'a>, rest: &[u8]) -> Option<&'a [u8]>
    ensures { value_is result ≡ find_among (left_of entries.entry) rest.now }
{
    for entry in entries {
        let Entry::Pair(key, value) = entry else {
            return None;
        };
        if octets::equal(rest, key) {
            return Some(value);
        }
    }
    None
}

// The child that owns a rest, of these.
#[tactic(auto, unfolding(crate::specs::Search::Own::owner_of))]
pub fn owner_of<'a>(branches: Branches<'a>, rest: &[u8]) -> Option<Branch<'a>>
    ensures { owner_is result ≡ owner_of (pending_of branches.entry) branches.entry.high.now rest.now }
{
    for branch in branches {
        if octets::owned(branch.low, branch.high, rest) {
            return Some(branch);
        }
    }
    None
}
