// Whether bytes are a well-formed path: a small state machine that is fed slice by slice, so that a suffix can be judged after a prefix that is not
// stored. specs/Shape.antt proves it equal to the definition of the paper. Relies on no other code.

#![tactic(auto)]

ghost use Rattle.std.specs.Prelude.{◌≡◌, ◌<◌, ◌≤◌, length};
ghost use Rattle.path.specs.Shape as defined;
ghost use Rattle.path.specs.Fed.{shape_is};
ghost use Rattle.path.specs.Reads.{Reads};
ghost use Rattle.image.specs.Path.{reads_on, well_formed, path_or_empty};

// A beginning of a path: its whole components, the bytes of the next one, and its bytes in all.
#[derive(Clone, Copy)]
pub struct Progress {
    pub components: usize,
    pub here: usize,
    pub bytes: usize,
}

// What some bytes are: a beginning of a path, or `None`, as no path begins so.
pub type Shape = Option<Progress>;

// The shape of no bytes.
pub fn start() -> Shape
    ensures { shape_is result ≡ defined.fresh }
{
    Some(Progress {
        components: 0,
        here: 0,
        bytes: 0,
    })
}

// One byte more.
#[tactic(auto, unfolding(crate::specs::Fed::shape_is, crate::specs::Shape::fed, image::specs::Path::letter))]
pub fn fed(sh: Shape, b: u8) -> Shape
    ensures { shape_is result ≡ defined.fed (shape_is sh) b }
{
    let Progress {
        components,
        here,
        bytes,
    } = sh?;
    if 64 <= bytes {
        return None;
    }
    match b {
        0 if 1 <= here && here <= 16 && components < 8 => Some(Progress {
            components: components + 1,
            here: 0,
            bytes: bytes + 1,
        }),
        33..=46 | 48..=126 if here < 16 => Some(Progress {
            components,
            here: here + 1,
            bytes: bytes + 1,
        }),
        _ => None,
    }
}

// All bytes of a slice.
pub fn feed(start: Shape, s: &[u8]) -> Shape
    ensures { shape_is result ≡ defined.feed (shape_is start) s.now }
{
    let mut sh = start;
    for &b in s {
        sh = fed(sh, b);
    }
    sh
}

// A beginning of a path within a path's length: its whole components, and the bytes of the next one.
#[derive(Clone, Copy)]
struct Reading {
    components: usize,
    here: usize,
}

impl Reading {
    // After a byte that is no letter past `/`: the end of a component, whose length is asked here, or a sign before `/`.
    fn past_sign(self, b: u8) -> Option<Reading>
        requires { (self.components ≤ 1000) × (self.here ≤ 1000) × (47 < b → 126 < b) }
        ensures { Reads self.components self.here b result }
    {
        match b {
            0 if 1 <= self.here && self.here <= 16 => Some(Reading {
                components: self.components + 1,
                here: 0,
            }),
            33..=46 => Some(Reading {
                here: self.here + 1,
                ..self
            }),
            _ => None,
        }
    }

    // After one byte more. Most bytes are letters past `/`, and are asked for first: both their bounds fail to the same place, so that LLVM makes
    // one comparison of the two.
    fn past(self, b: u8) -> Option<Reading>
        requires { (self.components ≤ 1000) × (self.here ≤ 1000) }
        ensures { Reads self.components self.here b result }
    {
        match b {
            48..=126 => Some(Reading {
                here: self.here + 1,
                ..self
            }),
            _ => self.past_sign(b),
        }
    }

    // Whether bytes that are few enough end the path.
    fn reads_on(self, s: &[u8]) -> bool
        requires { (self.components ≤ 8) × (self.here ≤ 16) × (length s.now ≤ 64) }
        ensures { result ≡ reads_on self.components self.here s.now }
    {
        let mut read = self;
        for &b in s {
            let Some(next) = read.past(b) else {
                return false;
            };
            read = next;
        }
        matches!(
            read,
            Reading {
                components: 1..=8,
                here: 0
            }
        )
    }
}

// Whether what was fed and then s is a well-formed path. Its length is asked once.
pub fn goes_on(sh: Shape, s: &[u8]) -> bool
    ensures { result ≡ defined.goes_on (shape_is sh) s.now }
{
    let Some(
        Progress {
            components,
            here,
            bytes,
        },
    ) = sh
    else {
        return false;
    };
    if 64 < bytes || 64 - bytes < s.len() || 8 < components || 16 < here {
        return false;
    }
    Reading { components, here }.reads_on(s)
}

// Whether s is a well-formed path: from no byte on.
pub fn is_path(s: &[u8]) -> bool
    ensures { result ≡ well_formed s.now }
{
    goes_on(
        Some(Progress {
            components: 0,
            here: 0,
            bytes: 0,
        }),
        s,
    )
}

// Whether s is the empty path or a well-formed one.
pub fn is_path_or_empty(s: &[u8]) -> bool
    ensures { result ≡ path_or_empty s.now }
{
    s.is_empty() || is_path(s)
}
