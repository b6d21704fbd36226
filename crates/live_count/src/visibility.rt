// Which messages are on a rest of a path, and which entry is a put. Relies on node (entries) and on notes; specs/Notes says what covers a rest.
ghost use Rattle.std.specs.Prelude.{◌≡◌, MatchOption};
ghost use Rattle.image.specs.Entry.{message, puts};
ghost use Rattle.node.specs.Lent.{entry_is, left_of};
ghost use Rattle.node.specs.Search.Latest.{newest_among};
ghost use Rattle.node.specs.Search.Messages.{has_message};
ghost use Rattle.live_count.specs.Live.{holds_no_message};
ghost use Rattle.live_count.specs.Notes.Notes.{NoPut};

use crate::notes::Note;
use node::entries::{Entries, Entry, Message};

// The suffix and the value of a put; none of any other entry.
#[inline(always)]
pub fn put_of(entry: Entry) -> Option<(&[u8], &[u8])>
    ensures { MatchOption result (NoPut (entry_is entry.entry)) (λ p. entry_is entry.entry ≡ message (puts p.0.now p.1.now)) }
{
    let Entry::Message(message) = entry else {
        return None;
    };
    let Message::Put(key, value) = message else {
        return None;
    };
    Some((key, value))
}

// Whether entries say nothing of a rest.
pub fn none_covers(entries: Entries, rest: &[u8]) -> bool
    ensures { result ≡ holds_no_message (newest_among (left_of entries.entry) rest.now) }
{
    for entry in entries {
        if let Some(note) = Note::of(entry) {
            if note.covers(rest) {
                return false;
            }
        }
    }
    true
}

// Whether any of the entries is a message.
pub fn has_messages(entries: Entries) -> bool
    ensures { result ≡ has_message (left_of entries.entry) }
{
    for entry in entries {
        if let Entry::Message(_) = entry {
            return true;
        }
    }
    false
}
