// The texts of answers, put into a page that is lent: each function answers where its text ends.
// Relies on octets for bytes, and on image for the numbers of refusals; image, Program defines each text.
ghost use Rattle.std.specs.Prelude.{◌+◌, ◌*◌, ◌<◌, ◌≤◌, ◌≡◌, cond, [], ◌∷◌, length, eqb};
ghost use Rattle.image.specs.Path.{value_limit};
ghost use Rattle.image.specs.Answers.{outcome_answer, found_answer};
ghost use Rattle.query.specs.Asked.{found_length};
ghost use Rattle.image.specs.Program.{exchanged, digit_text, hex_text, value_text, bad_text, end_text, decimal, refused_text, answer_text};
ghost use Rattle.script.specs.Writing.{Wrote};

use image::Refusal;

// One byte for another.
fn exchange_byte(c: u8, from: u8, to: u8) -> u8
    ensures { result ≡ cond (eqb c from) to c }
{
    if c == from {
        return to;
    }
    c
}

// The bytes of `s` at a place, each `from` as `to`: where they end.
pub fn put_exchanged(s: &[u8], from: u8, to: u8, out: &mut [u8], at: usize) -> usize
    requires { at + length s.now ≤ length out.old }
    ensures { Wrote out.old at (exchanged from to s.now) result out.new }
{
    for (i, c) in s.iter().enumerate() {
        out[at + i] = exchange_byte(*c, from, to);
    }
    at + s.len()
}

// A digit as the program prints it.
fn show_digit(d: u8) -> u8
    requires { d < 16 }
    ensures { result ≡ digit_text d }
{
    if d < 10 {
        return 48 + d;
    }
    87 + d
}

// Each byte as two digits: where they end.
fn put_hex(value: &[u8], out: &mut [u8], at: usize) -> usize
    requires { at + 2 * length value.now ≤ length out.old }
    ensures { Wrote out.old at (hex_text value.now) result out.new }
{
    for (i, byte) in value.iter().enumerate() {
        out[at + 2 * i] = show_digit(*byte / 16);
        out[at + 2 * i + 1] = show_digit(*byte % 16);
    }
    at + 2 * value.len()
}

// A text at a place: where it ends.
fn put_text(text: &[u8], out: &mut [u8], at: usize) -> usize
    requires { at + length text.now ≤ length out.old }
    ensures { Wrote out.old at text.now result out.new }
{
    octets::copy_at(out, at, text);
    at + text.len()
}

// A value in hexadecimal, or a hyphen: where it ends.
pub fn put_value(value: &[u8], out: &mut [u8], at: usize) -> usize
    requires { (length value.now ≤ value_limit) × (at + 2 * value_limit ≤ length out.old) }
    ensures { Wrote out.old at (value_text value.now) result out.new }
{
    if value.len() == 0 {
        return put_text(b"-", out, at);
    }
    put_hex(value, out, at)
}

// One byte at a place: where it ends.
pub fn put_byte(byte: u8, out: &mut [u8], at: usize) -> usize
    requires { at < length out.old }
    ensures { Wrote out.old at (byte ∷ []) result out.new }
{
    out[at] = byte;
    at + 1
}

// A number of one or two digits: where they end.
fn put_decimal(number: u32, out: &mut [u8], at: usize) -> usize
    requires { (number < 100) × (at + 2 ≤ length out.old) }
    ensures { Wrote out.old at (decimal number) result out.new × (result ≤ at + 2) }
{
    if number < 10 {
        return put_byte((48 + number) as u8, out, at);
    }
    let next = put_byte((48 + number / 10) as u8, out, at);
    put_byte((48 + number % 10) as u8, out, next)
}

// `refused` and the number.
pub fn put_refused(number: u32, out: &mut [u8]) -> usize
    requires { (number < 100) × (11 ≤ length out.old) }
    ensures { Wrote out.old 0 (refused_text number) result out.new }
{
    let at = put_text(b"refused ", out, 0);
    let end = put_decimal(number, out, at);
    put_byte(10, out, end)
}

// `ok` or the refusal.
pub fn put_outcome(outcome: Result<(), Refusal>, out: &mut [u8]) -> usize
    requires { 11 ≤ length out.old }
    ensures { Wrote out.old 0 (answer_text (outcome_answer outcome)) result out.new }
{
    match outcome {
        Ok(()) => put_text(b"ok\n", out, 0),
        Err(refusal) => put_refused(u32::from(refusal), out),
    }
}

// The value that get found, or the refusal.
pub fn put_found(found: Result<usize, Refusal>, value: &[u8], out: &mut [u8]) -> usize
    requires { (found_length found ≤ value_limit) × (value_limit ≤ length value.now) × (2 * value_limit + 1 ≤ length out.old) }
    ensures { Wrote out.old 0 (answer_text (found_answer found value.now)) result out.new }
{
    match found {
        Ok(n) => {
            let at = put_value(&value[0..n], out, 0);
            put_byte(10, out, at)
        }
        Err(refusal) => put_refused(u32::from(refusal), out),
    }
}

// The answer to a line that does not read.
pub fn put_bad(out: &mut [u8]) -> usize
    requires { 4 ≤ length out.old }
    ensures { Wrote out.old 0 bad_text result out.new }
{
    put_text(b"bad\n", out, 0)
}

// The end of a list: where it ends.
pub fn put_end(out: &mut [u8], at: usize) -> usize
    requires { at + 4 ≤ length out.old }
    ensures { Wrote out.old at end_text result out.new }
{
    put_text(b"end\n", out, at)
}
