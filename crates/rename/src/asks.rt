// Questions 7, 8 and 9 of a move. They read the store and both paths, and touch neither the store nor the work area. Relies on octets, path (the
// shape of a path, fed in pieces) and successor (the next path below a path, or the next whose rest does not fit a shape).
ghost use Rattle.std.specs.Prelude.{◌≡◌, true, not};
ghost use Rattle.image.specs.Path.{well_formed, proper_beginning, may_move};
ghost use Rattle.image.specs.Table.{rows_below, moved, every_key};
ghost use Rattle.image.specs.Calls.{is_empty};
ghost use Rattle.image.specs.Sound.{sound, table_of};
ghost use Rattle.path.specs.Fed.{shape_is};
ghost use Rattle.rename.specs.Asks.Judge.{rests_fit};
ghost use Rattle.rename.specs.Asks.Shorter.{no_wider};

use path::Shape;

// Whether p is a beginning of q, and not q.
fn begins_properly(p: &[u8], q: &[u8]) -> bool
    ensures { result ≡ proper_beginning p.now q.now }
{
    if !octets::begins_with(p, q) {
        return false;
    }
    !octets::equal(p, q)
}

// Question 7: is neither path a proper beginning of the other?
pub fn may_move(from: &[u8], to: &[u8]) -> bool
    ensures { result ≡ may_move from.now to.now }
{
    if begins_properly(from, to) {
        return false;
    }
    !begins_properly(to, from)
}

// Question 8: is any path present below this one?
pub fn any_below(store: &[u8], from: &[u8]) -> bool
    requires { sound store.now ≡ true }
    ensures { result ≡ not (is_empty (rows_below from.now (table_of store.now))) }
{
    successor::next_path(store, from, &[]).is_some()
}

// Whether the second shape has no more components and no more bytes than the first.
#[tactic(auto, unfolding(path::specs::Fed::shape_is, crate::specs::Asks::Shorter::no_wider))]
fn no_wider(old: Shape, new: Shape) -> bool
    ensures { result ≡ no_wider (shape_is old) (shape_is new) }
{
    match (old, new) {
        (Some(a), Some(b)) => b.components <= a.components && b.bytes <= a.bytes,
        _ => false,
    }
}

// Whether, of every present path below `from`, what follows `from` goes on from the shape: one walk looks for a path that does not.
fn rests_fit(store: &[u8], from: &[u8], shape: Shape) -> bool
    requires { sound store.now ≡ true }
    ensures { result ≡ rests_fit (shape_is shape) from.now (table_of store.now) }
{
    successor::next_unfit(store, from, &[], shape).is_none()
}

// Question 9: is every present path still well formed after the move?
pub fn stays_formed(store: &[u8], from: &[u8], to: &[u8]) -> bool
    requires { (sound store.now ≡ true) × (well_formed from.now ≡ true) × (well_formed to.now ≡ true) }
    ensures { result ≡ every_key well_formed (moved from.now to.now (table_of store.now)) }
{
    let start = path::start();
    let old = path::feed(start, from);
    let new = path::feed(start, to);
    if no_wider(old, new) {
        return true;
    }
    rests_fit(store, from, new)
}
