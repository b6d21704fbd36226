// The fields of a line, read: where one ends, the path that a text stands for, the value that hexadecimal text stands for.
// Relies on octets for bytes and on writing for the exchange of bytes; image, Program defines what a field stands for.
ghost use Rattle.std.specs.Prelude.{◌+◌, ◌*◌, ◌<◌, ◌≤◌, ◌≡◌, length, MatchOption};
ghost use Rattle.image.specs.Program.{path_of, digit_of, bytes_of, value_of};
ghost use Rattle.script.specs.Find.{up_to};
ghost use Rattle.script.specs.Reading.{Front, Parsed};

// Where the first byte `b` stands; the length where there is none.
pub fn find_byte(s: &[u8], b: u8) -> usize
    ensures { (result ≡ up_to b s.now) × (result ≤ length s.now) }
{
    for (i, c) in s.iter().enumerate() {
        if *c == b {
            return i;
        }
    }
    s.len()
}

// The path that a text stands for, at the front of the buffer: its length, which is 0 for a lone `/`.
pub fn read_path(text: &[u8], path: &mut [u8]) -> usize
    requires { length text.now < length path.old }
    ensures { Front (path_of text.now) result path.new }
{
    if octets::equal(text, b"/") {
        return 0;
    }
    if find_byte(text, 0) < text.len() {
        path[0] = 0; // a byte 00 in the text: the path of that byte alone, which no call takes
        return 1;
    }
    let end = crate::writing::put_exchanged(text, 47, 0, path, 0);
    path[end] = 0;
    end + 1
}

// A hexadecimal digit of either case.
#[tactic(auto, unfolding(image::specs::Program::digit_of))]
fn read_digit(b: u8) -> Option<u8>
    ensures { MatchOption result (digit_of b ≡ 16) (λ d. (d ≡ digit_of b) × (d ≤ 15)) }
{
    match b {
        b'0'..=b'9' => Some(b - b'0'),
        b'A'..=b'F' => Some(b - b'A' + 10),
        b'a'..=b'f' => Some(b - b'a' + 10),
        _ => None,
    }
}

// The bytes of hexadecimal text, at the front of the buffer: their length, if it is not odd or wrong.
fn read_hex(hex: &[u8], value: &mut [u8]) -> Option<usize>
    requires { length hex.now ≤ 2 * length value.old }
    ensures { Parsed (bytes_of hex.now) result value.new }
{
    let n = hex.len() / 2;
    for i in 0..n {
        let high = read_digit(hex[2 * i])?;
        let low = read_digit(hex[2 * i + 1])?;
        value[i] = 16 * high + low;
    }
    if hex.len() % 2 == 1 {
        return None;
    }
    Some(n)
}

// The value of a field.
pub fn read_value(text: &[u8], value: &mut [u8]) -> Option<usize>
    requires { length text.now ≤ 2 * length value.old }
    ensures { Parsed (value_of text.now) result value.new }
{
    if octets::equal(text, b"-") {
        return Some(0);
    }
    read_hex(text, value)
}
