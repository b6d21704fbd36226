// The questions of move from 3 on, in order, and what is to be done when all are a yes. Nothing is written here.
// Relies on path (3), asks (7, 8 and 9) and octets.
ghost use Rattle.std.specs.Prelude.{◌≡◌, true};
ghost use Rattle.image.specs.Sound.{sound, table_of};
ghost use Rattle.rename.specs.Going.Going.{going_of};

use image::Refusal;

// A move that no question refuses leaves every byte of the store (from equals to), or goes.
#[derive(Clone, Copy)]
pub enum Going {
    Stays,
    Goes,
}

// The questions from 3 on, of a sound store.
#[tactic(auto, unfolding(crate::specs::Going::Going::going_of))]
pub fn ask_later(store: &[u8], from: &[u8], to: &[u8]) -> Result<Going, Refusal>
    requires { sound store.now ≡ true }
    ensures { result ≡ going_of from.now to.now (table_of store.now) }
{
    if !path::is_path(from) {
        return Err(Refusal::Malformed);
    }
    if !path::is_path(to) {
        return Err(Refusal::Malformed);
    }
    if !crate::asks::may_move(from, to) {
        return Err(Refusal::Nested);
    }
    if !crate::asks::any_below(store, from) {
        return Err(Refusal::Absent);
    }
    if !crate::asks::stays_formed(store, from, to) {
        return Err(Refusal::BecomesMalformed);
    }
    if octets::equal(from, to) {
        return Ok(Going::Stays);
    }
    Ok(Going::Goes)
}
