// A path, or the beginning of one, held by value: at most 64 bytes, as a path has. Contracts see it as the list of its bytes. Zeros stand
// behind these, so the list tells the fields, as Copy asks. Relies on octets, on the longest path of image and on std (Model).
ghost use Rattle.std.specs.Prelude.{◌≡◌, ◌≤◌, ◌<◌, ◌++◌, [], MatchOption, length};
ghost use Rattle.node.specs.Fitted.{fitted, buffer_is};

use std::marker::Model;

#[derive(Clone, Copy)]
pub struct PathBuffer {
    bytes: [u8; 64],
    len: usize,
}

impl Model for PathBuffer {
    ghost use Rattle.std.specs.Prelude.{◌≡◌, ◌≤◌, List, ℕ, length, take};
    ghost use Rattle.image.specs.Prelude.{sym, arith, length-take-le};
    ghost use Rattle.node.specs.Fitted.{filled};

    ghost Value = { List ℕ };

    ghost view = { λ p. take p.len p.bytes };

    ghost invariant = { λ p. (p.len ≤ 64) × (length p.bytes ≡ 64) × (p.bytes ≡ filled (take p.len p.bytes)) };

    ghost inverse = { λ x. record { bytes = filled x; len = length x } };

    ghost inverse_ok = { λ p h i. record { bytes = sym h.2 i; len = length-take-le p.len p.bytes (omega (arith, h.0, h.1)) i } };
}

impl PathBuffer {
    // No bytes yet.
    pub fn new() -> PathBuffer
        ensures { result ≡ [] }
    {
        PathBuffer {
            bytes: [0; 64],
            len: 0,
        }
    }

    // The path front ++ back; none where it is too long for any path.
    pub fn join(front: &[u8], back: &[u8]) -> Option<PathBuffer>
        ensures { buffer_is result ≡ fitted (front.now ++ back.now) }
    {
        let at = front.len();
        let len = at + back.len();
        if image::PATH_LIMIT < len {
            return None;
        }
        let mut bytes = [0u8; 64];
        octets::copy_at(&mut bytes, 0, front);
        octets::copy_at(&mut bytes, at, back);
        Some(PathBuffer { bytes, len })
    }

    // The path followed by the bytes `back`; none where that is too long for any path.
    pub fn followed_by(&self, back: &[u8]) -> Option<PathBuffer>
        ensures { MatchOption result (64 < length (self.now ++ back.now)) (λ p. p ≡ self.now ++ back.now) }
    {
        PathBuffer::join(self.as_slice(), back)
    }

    pub fn as_slice(&self) -> &[u8]
        ensures held { result.now ≡ self.now }
        ensures short { length self.now ≤ 64 }
    {
        &self.bytes[..self.len]
    }
}
