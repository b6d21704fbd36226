// Strings of bytes and the numbers in them: what the other crates read, compare and write bytes with. One loop compares from the front,
// `common_length`, and `precedes` follows from it by laws; `equal` compares from the end. Relies on std alone, for its slices and numbers.

#![tactic(auto)]

ghost use Rattle.std.specs.Prelude.{◌≡◌, ◌+◌, ◌<◌, ◌≤◌, length, replicate};
ghost use Rattle.image.specs.Bytes.{same, before, begins, shared, u16, u16_bytes};
ghost use Rattle.image.specs.Path.{owns};
ghost use Rattle.octets.specs.Cap.{cap};
ghost use Rattle.octets.specs.Put.{put};
ghost use Rattle.octets.specs.Ordering.{ordering};

use std::cmp::Ordering;

// A byte as a number.
pub fn wide(x: u8) -> usize
    ensures { (result ≡ x) × (result < 256) }
{
    usize::from(x)
}

// A sum, where more than 65,535, the most that two bytes hold, is told as 65,535.
pub fn capped_sum(a: usize, b: usize) -> usize
    ensures { (result ≡ cap (a + b)) × (result ≤ 65535) }
{
    a.saturating_add(b).min(65535)
}

// The two-byte little-endian number at a place.
pub fn u16_at(s: &[u8], at: usize) -> usize
    requires { at + 1 < length s.now }
    ensures { (result ≡ u16 s.now at) × (result < 65536) }
{
    usize::from(u16::from_le_bytes([s[at], s[at + 1]]))
}

// How many bytes a and b have in common at the front. A `for`: measured, a chain of `zip` and `take_while` takes 15 to 40 percent longer.
pub fn common_length(a: &[u8], b: &[u8]) -> usize
    ensures { (result ≡ length (shared a.now b.now)) × (result ≤ length a.now) × (result ≤ length b.now) }
{
    let shorter = a.len().min(b.len());
    for i in 0..shorter {
        if a[i] != b[i] {
            return i;
        }
    }
    shorter
}

// Whether a is a beginning of b.
pub fn begins_with(a: &[u8], b: &[u8]) -> bool
    ensures { result ≡ begins a.now b.now }
{
    b.starts_with(a)
}

// Whether a and b are the same bytes. From the end: paths share long beginnings, and those that differ mostly do so near their ends:
// measured, two that differ take half as long again with `==` of slices.
pub fn equal(a: &[u8], b: &[u8]) -> bool
    ensures { result ≡ same a.now b.now }
{
    if a.len() != b.len() {
        return false;
    }
    let mut i = a.len();
    while 0 < i {
        i -= 1;
        if a[i] != b[i] {
            return false;
        }
    }
    true
}

// Whether a comes before b. By `common_length`: measured, a get of 1,024 records takes 7 percent more instructions with `cmp` of slices.
pub fn precedes(a: &[u8], b: &[u8]) -> bool
    ensures { result ≡ before a.now b.now }
{
    let k = common_length(a, b);
    if b.len() <= k {
        return false;
    }
    if a.len() <= k {
        return true;
    }
    a[k] < b[k]
}

// How a stands to b.
pub fn compare(a: &[u8], b: &[u8]) -> Ordering
    ensures { result ≡ ordering a.now b.now }
{
    a.cmp(&b)
}

// Whether p lies from lo up to, not including, hi.
pub fn owned(lo: &[u8], hi: &[u8], p: &[u8]) -> bool
    ensures { result ≡ owns lo.now hi.now p.now }
{
    !precedes(p, lo) && precedes(p, hi)
}

// A number below 65,536 as two bytes at a place.
pub fn put_u16(page: &mut [u8], at: usize, v: usize)
    requires { (at + 2 ≤ length page.old) × (v < 65536) }
    ensures { page.new ≡ put page.old at (u16_bytes v) }
{
    page[at..at + 2].copy_from_slice(&(v as u16).to_le_bytes());
}

// The bytes of `src` at a place.
pub fn copy_at(page: &mut [u8], at: usize, src: &[u8])
    requires { at + length src.now ≤ length page.old }
    ensures { page.new ≡ put page.old at src.now }
{
    // Not by `copy_from_slice`: C would have to bring a memmove (`nm -u`), and most strings here are too short for a call.
    for i in 0..src.len() {
        page[at + i] = src[i];
    }
}

// The same byte `count` times at a place.
pub fn fill_at(page: &mut [u8], at: usize, count: usize, byte: u8)
    requires { at + count ≤ length page.old }
    ensures { page.new ≡ put page.old at (replicate count byte) }
{
    // Not by `fill`: that brings a trap into the module of the other processors (docs/TARGETS.md).
    for i in 0..count {
        page[at + i] = byte;
    }
}
