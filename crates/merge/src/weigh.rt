// How many bytes the entries of two neighbours take in one node. Only reads.
// Relies on the readers of nodes (node), push and octets; Laws/Joined says what an entry weighs.
ghost use Rattle.std.specs.Prelude.{◌≡◌, ◌≤◌, length};
ghost use Rattle.laws.specs.Encode.{bytes_of, bytes_of_all};
ghost use Rattle.node.specs.Lent.{entry_is, left_of};
ghost use Rattle.merge.specs.Laws.Joined.{weight, weights, node_weight, left_more, right_more, pair_fits};
ghost use Rattle.merge.specs.Light.{Weighs, Light};

use node::branches::Branch;
use node::entries::{Entries, Entry};

// What the left one of two neighbours lifts and both as one do not: its suffixes have it in front then.
pub fn left_more<'a>(left: Branch<'a>, right: Branch) -> &'a [u8]
    ensures { result.now ≡ left_more left.entry.low.now left.entry.high.now right.entry.high.now }
{
    let lifted = &left.low[..octets::common_length(left.low, left.high)];
    push::room::past(lifted, octets::common_length(left.low, right.high))
}

// The same of the right one.
pub fn right_more<'a>(left: Branch<'a>, right: Branch) -> &'a [u8]
    ensures { result.now ≡ right_more left.entry.low.now left.entry.high.now right.entry.high.now }
{
    let lifted = &left.high[..octets::common_length(left.high, right.high)];
    push::room::past(lifted, octets::common_length(left.low, right.high))
}

// How many bytes an entry takes whose suffix grows by so many; none of one that no joined node may hold.
fn weigh_entry(entry: Entry, more: usize) -> Option<usize>
    requires { (length (bytes_of (entry_is entry)) ≤ 1016) × (more ≤ 2000000) }
    ensures { Weighs (weight more (entry_is entry.entry)) result }
{
    match entry {
        Entry::Pair(key, value) => Some(6 + (more + key.len()) + value.len()),
        Entry::Child(number, pivot) => {
            let len = more + pivot.len();
            if image::PIVOT_LIMIT < len {
                return None;
            }
            if 65535 < number {
                return None;
            }
            Some(6 + len)
        }
        Entry::Message(_) => None,
    }
}

// The same of entries behind so many bytes, if all that is no more than a node holds.
fn weigh_entries(entries: Entries, more: usize, used: usize) -> Option<usize>
    requires { (length (bytes_of_all (left_of entries)) ≤ 1016) × (more ≤ 2000000) × (used ≤ 1016) }
    ensures { Light (weights more (left_of entries.entry) used) result }
{
    let mut sum = used;
    for entry in entries {
        sum += weigh_entry(entry, more)?;
        let over = image::ENTRIES_LIMIT < sum;
        if over {
            return None;
        }
    }
    Some(sum)
}

// The same of the entries of a node of the store.
fn weigh_node(store: &[u8], num: usize, more: usize, used: usize) -> Option<usize>
    requires { (more ≤ 2000000) × (used ≤ 1016) }
    ensures { Light (node_weight more store.now num used) result }
{
    if store.len() / image::NODE_SIZE <= num {
        return None;
    }
    if image::ENTRIES_LIMIT < node::header::read_length(store, num * image::NODE_SIZE) {
        return None;
    }
    weigh_entries(Entries::of_node(store, num), more, used)
}

// Whether one node holds the entries of two neighbours.
pub fn pair_fits(store: &[u8], left: Branch, right: Branch) -> bool
    requires { (length left.low.now ≤ 2000000) × (length left.high.now ≤ 2000000) }
    ensures { result ≡ pair_fits store.now left.entry.number right.entry.number left.entry.low.now left.entry.high.now right.entry.high.now }
{
    let Some(one) = weigh_node(store, left.number, left_more(left, right).len(), 0) else {
        return false;
    };
    let both = weigh_node(store, right.number, right_more(left, right).len(), one);
    both.is_some()
}
