// The order and the beginnings of a path that is given in two parts, without joining them. Relies on octets.
ghost use Rattle.std.specs.Prelude.{◌≡◌, ◌++◌};
ghost use Rattle.image.specs.Bytes.{before, begins};

// Whether pre ++ s comes before t.
pub fn joined_precedes(pre: &[u8], s: &[u8], t: &[u8]) -> bool
    ensures { result ≡ before (pre.now ++ s.now) t.now }
{
    if octets::begins_with(pre, t) {
        return octets::precedes(s, &t[pre.len()..]);
    }
    octets::precedes(pre, t)
}

// Whether t comes before pre ++ s.
pub fn precedes_joined(t: &[u8], pre: &[u8], s: &[u8]) -> bool
    ensures { result ≡ before t.now (pre.now ++ s.now) }
{
    if octets::begins_with(pre, t) {
        return octets::precedes(&t[pre.len()..], s);
    }
    octets::precedes(t, pre)
}

// Whether t is a beginning of pre ++ s.
pub fn starts_joined(t: &[u8], pre: &[u8], s: &[u8]) -> bool
    ensures { result ≡ begins t.now (pre.now ++ s.now) }
{
    if octets::begins_with(pre, t) {
        return octets::begins_with(&t[pre.len()..], s);
    }
    octets::begins_with(t, pre)
}
