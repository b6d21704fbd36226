// The listing: a place, the last path given, that is lent to each step and moved on by it. A thin layer over query's next, whose questions
// and answers are the step's own. Relies on: query.

#![tactic(auto)]

ghost use Rattle.std.specs.Prelude.{◌≡◌, [], MatchResult};
ghost use Rattle.image.specs.Calls.{asks, next};
ghost use Rattle.image.specs.Contract.{Meets};
ghost use Rattle.image.specs.Answers.{refusal_number, found_answer, outcome_number};
ghost use Rattle.image.specs.Listing.{last_path, Steps};

use image::{Listing, Refusal};

// A place before the first step.
pub fn start() -> Listing
    ensures { last_path result ≡ [] }
{
    Listing {
        last: [0u8; 64],
        len: 0,
    }
}

// Next, with the place's path as its second. A length over 64 is of no path: it gets next's answers to one that is malformed.
fn next_after(store: &[u8], below: &[u8], place: Listing, path: &mut [u8]) -> Result<usize, Refusal>
    ensures { Meets store.now (asks (next below.now (last_path place)) path.old) (found_answer result path.new) store.now [] }
{
    let len = place.len;
    if image::PATH_LIMIT < len {
        let malformed = [0u8; 1];
        return query::next(store, below, &malformed, path);
    }
    let last = place.last;
    query::next(store, below, &last[0..len], path)
}

// A step with the place by value: the least path below the first that is greater than the place's, or a refusal, at which the place stays.
pub fn advance(store: &[u8], below: &[u8], place: Listing) -> Result<Listing, Refusal>
    ensures { MatchResult result (λ to. Steps store.now below.now place 0 to) (λ why. Steps store.now below.now place (refusal_number why) place) }
{
    let mut path = place.last; // what stands behind the path found stays
    let len = next_after(store, below, place, &mut path)?;
    Ok(Listing { last: path, len })
}

// A step with the place lent.
#[tactic(auto, unfolding(image::specs::Answers::outcome_number))]
pub fn step(store: &[u8], below: &[u8], place: &mut Listing) -> Result<(), Refusal>
    ensures { Steps store.now below.now place.old (outcome_number result) place.new }
{
    *place = advance(store, below, *place)?;
    Ok(())
}
