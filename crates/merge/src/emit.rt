// Entries written one after the other: with more bytes in front of each suffix, or all but one child.
// Relies on node's entries and page; Laws/Joined says what is written.
ghost use Rattle.std.specs.Prelude.{◌≡◌, ◌++◌, true, ◌+◌, ◌≤◌, length};
ghost use Rattle.laws.specs.Encode.{bytes_of, bytes_of_all};
ghost use Rattle.node.specs.Lent.{entry_is, left_of};
ghost use Rattle.merge.specs.Laws.Joined.{prefixed, prefixed_all, is_child, without_child, small_entry, small_entries};

use node::entries::{Entries, Entry};
use node::page::Page;

// An entry with more bytes in front of its suffix; a message as it is.
fn emit_entry(page: &mut Page, entry: Entry, more: &[u8])
    requires { (small_entry (entry_is entry) ≡ true)
        × (length page.old + length (bytes_of (prefixed more.now (entry_is entry))) ≤ 1016) }
    ensures { page.new ≡ page.old ++ bytes_of (prefixed more.now (entry_is entry.entry)) }
{
    match entry {
        Entry::Pair(key, value) => page.push_longer_pair(more, key, value),
        Entry::Child(number, pivot) => page.push_longer_child(number, more, pivot),
        Entry::Message(_) => page.push(entry),
    }
}

// Entries, each with more bytes in front of its suffix.
pub fn emit_entries(page: &mut Page, entries: Entries, more: &[u8])
    requires { (small_entries (left_of entries) ≡ true)
        × (length page.old + length (bytes_of_all (prefixed_all more.now (left_of entries))) ≤ 1016) }
    ensures { page.new ≡ page.old ++ bytes_of_all (prefixed_all more.now (left_of entries.entry)) }
{
    for entry in entries {
        emit_entry(page, entry, more);
    }
}

// Whether an entry is the child of this number.
#[tactic(auto, unfolding(crate::specs::Laws::Joined::is_child))]
fn is_child(entry: Entry, num: usize) -> bool
    ensures { result ≡ is_child num (entry_is entry.entry) }
{
    match entry {
        Entry::Child(number, _) => number == num,
        Entry::Pair(_, _) | Entry::Message(_) => false,
    }
}

// Entries but the child of this number.
pub fn emit_others(page: &mut Page, entries: Entries, gone: usize)
    requires { (small_entries (left_of entries) ≡ true)
        × (length page.old + length (bytes_of_all (without_child gone (left_of entries))) ≤ 1016) }
    ensures { page.new ≡ page.old ++ bytes_of_all (without_child gone (left_of entries.entry)) }
{
    for entry in entries {
        if !is_child(entry, gone) {
            page.push(entry);
        }
    }
}
