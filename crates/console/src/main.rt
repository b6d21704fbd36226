// The program: reads lines from standard input and prints what each says, on a store just made or on the one that files begins with. Script
// has the work; here are the reads, the writes and the loop. Relies on: script, files and std.

#![tactic(auto)]

mod files;

ghost use Rattle.std.specs.Prelude.{◌≤◌, length, IfOk};
ghost use Rattle.script.specs.Answered.{Held};

use std::io;
use std::io::{ErrorKind, Read, Write};

// How often a read or a write is tried. A signal can interrupt a call, so a call that fails is made again; one that fails so often in a row
// fails for another reason.
const TRIES: usize = 65536;

// Writes some of the text: how many bytes, 0 where the output takes none.
fn write_some<W: Write>(output: &mut W, text: &[u8]) -> io::Result<usize>
    ensures { IfOk result (λ n. n ≤ length text.now) }
{
    for _ in 1..TRIES {
        match output.write(text) {
            Ok(0) => {}
            Ok(count) => return Ok(count),
            Err(_) => {}
        }
    }
    output.write(text)
}

// Writes all of the text.
fn write_text<W: Write>(output: &mut W, text: &[u8]) -> io::Result<()> {
    let mut at = 0;
    while at < text.len() {
        let count = write_some(output, &text[at..])?;
        if count == 0 {
            return Err(io::Error::from(ErrorKind::WriteZero));
        }
        at += count;
    }
    Ok(())
}

// Reads some bytes: how many, 0 at the end of the input.
fn read_some<R: Read>(input: &mut R, chunk: &mut [u8]) -> io::Result<usize>
    ensures { IfOk result (λ n. n ≤ length chunk.new) }
{
    for _ in 1..TRIES {
        match input.read(chunk) {
            Ok(count) => return Ok(count),
            Err(_) => {}
        }
    }
    input.read(chunk)
}

// Feeds the bytes one by one and prints what each says: how much of the line buffer is used then.
fn feed_all<W: Write>(
    output: &mut W,
    store: &mut [u8],
    work: &mut [u8],
    line: &mut [u8],
    len: usize,
    chunk: &[u8],
    out: &mut [u8],
) -> io::Result<usize>
    requires { Held store.old out.old × (8192 ≤ length work.old) × (256 ≤ length line.old) × (len ≤ 256) }
    ensures held { Held store.new out.new }
    ensures used { IfOk result (λ n. n ≤ 256) }
{
    let mut used = len;
    for byte in chunk {
        let p = script::feed(store, work, line, used, *byte, out);
        let count = p.count;
        write_text(output, &out[0..count])?;
        used = p.len;
    }
    Ok(used)
}

// Reads to the end of the input. A proved loop has to end, and nothing says that an input does: so it counts its turns, to a number that no run
// uses up.
fn run<R: Read, W: Write>(
    input: &mut R,
    output: &mut W,
    store: &mut [u8],
    work: &mut [u8],
    line: &mut [u8],
    chunk: &mut [u8],
    out: &mut [u8],
) -> io::Result<()>
    requires { Held store.old out.old × (8192 ≤ length work.old) × (256 ≤ length line.old) }
{
    let mut used = 0;
    for _ in 0..u64::MAX {
        let n = read_some(input, chunk)?;
        if n == 0 {
            let count = script::finish(store, work, line, used, out);
            return write_text(output, &out[0..count]);
        }
        used = feed_all(output, store, work, line, used, &chunk[0..n], out)?;
    }
    Err(io::Error::from(ErrorKind::Other))
}

fn main(rt: HostRuntime) {
    let mut store = [0u8; 65536];
    let mut work = [0u8; 65536];
    let mut line = [0u8; 4096];
    let mut chunk = [0u8; 65536];
    let mut out = [0u8; 65536];
    if !files::begin(&rt, &mut store) {
        return;
    }
    let mut input = rt.stdin();
    let mut output = rt.stdout();
    match run(
        &mut input,
        &mut output,
        &mut store,
        &mut work,
        &mut line,
        &mut chunk,
        &mut out,
    ) {
        Ok(()) => files::end(&rt, &store),
        Err(error) => files::tell_failure(&rt, &error),
    }
}
