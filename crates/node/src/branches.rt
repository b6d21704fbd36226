// The children of an interior node, each with both its pivots: an iterator over the entries in front of its messages. A child's high pivot is the next
// one's low pivot, or else the node's own. Relies on entries.
ghost use Rattle.std.specs.Prelude.{◌≡◌};
ghost use Rattle.node.specs.Lent.{left_of};
ghost use Rattle.node.specs.Search.Own.{branches_among};
ghost use Rattle.node.specs.Spans.{pending, pending_of, FrontAs, Gives};

use crate::entries::{Entries, Entry};

// A child: its node's number, and its two pivots.
#[derive(Clone, Copy)]
pub struct Branch<'a> {
    pub number: usize,
    pub low: &'a [u8],
    pub high: &'a [u8],
}

// The children that are still to be given: the first one's number and low pivot, the entries behind it, and the high pivot of the last.
#[derive(Clone, Copy)]
pub struct Branches<'a> {
    pub front: Option<(usize, &'a [u8])>,
    pub behind: Entries<'a>,
    pub high: &'a [u8],
}

// The child that stands in front, as its number and its low pivot, and the entries behind it; none where no child does.
fn read_front(entries: Entries) -> (Option<(usize, &[u8])>, Entries)
    ensures { FrontAs (left_of entries.entry) result.0 result.1 }
{
    let mut behind = entries;
    let Some(entry) = behind.next() else {
        return (None, behind);
    };
    let Entry::Child(number, low) = entry else {
        return (None, behind);
    };
    (Some((number, low)), behind)
}

impl<'a> Branches<'a> {
    // The children among these entries; `high` is the high pivot of the node that has them.
    pub fn among(entries: Entries<'a>, high: &'a [u8]) -> Branches<'a>
        ensures pending { pending_of result ≡ branches_among (left_of entries.entry) }
        ensures high { result.high.now ≡ high.now }
    {
        let (front, behind) = read_front(entries);
        Branches {
            front,
            behind,
            high,
        }
    }
}

impl<'a> Iterator for Branches<'a> {
    ghost use Rattle.std.specs.Iterator.{item_count};

    type Item = Branch<'a>;

    ghost next_gives = { Gives };

    ghost remaining = { item_count pending_of };

    fn next(&mut self) -> Option<Branch<'a>> {
        let (number, low) = self.front?;
        let (front, behind) = read_front(self.behind);
        self.front = front;
        self.behind = behind;
        let high = match front {
            Some((_, pivot)) => pivot,
            None => self.high,
        };
        Some(Branch { number, low, high })
    }
}
