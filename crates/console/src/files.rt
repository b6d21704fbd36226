// The program's files, `console [DONE [NEW [OLD]]]`: how many words there are says which of the descriptors 3, 4 and 5 tools/splicelog.c has
// opened; the words are their names for messages. The program goes on with the image on OLD and leaves its own on NEW, and a byte on DONE
// says that all is done. Nothing is made or removed here. Relies on: make, soundness and std.
ghost use Rattle.std.specs.Prelude.{◌≡◌, true, length, OnOk};
ghost use Rattle.image.specs.Sound.{sound};

use image::Refusal;
use std::env::{Env, FillError};
use std::fs::{File, OpenOptions};
use std::io;
use std::io::{Read, Write};

// The system's names for the three descriptors.
const DONE: &str = "/dev/fd/3";

const NEW: &str = "/dev/fd/4";

const OLD: &str = "/dev/fd/5";

// Whether the program was given this many words behind its name.
fn has_words(rt: &HostRuntime, count: usize) -> bool {
    let mut first = [0u8; 1];
    !matches!(rt.arg(count, &mut first), Err(FillError::NotPresent))
}

// Tells what is the matter with the file that this word names, on standard error. That it may not be printed is nobody's concern any more.
fn tell(rt: &HostRuntime, word: usize, what: &str) {
    let mut name = [0u8; 4096];
    let length = rt.arg(word, &mut name).unwrap_or(0);
    let mut errors = rt.stderr();
    let _ = errors.write_all(b"splicelog: ");
    let _ = errors.write_all(&name[0..length]);
    let _ = errors.write_all(what.as_bytes());
}

// What the system says of an error, without its number.
fn tell_words(rt: &HostRuntime, error: &io::Error) {
    let mut errors = rt.stderr();
    let _ = errors.write_all(b": ");
    if let Ok(text) = format!(in rt.alloc(); "{error}") {
        let words = text.as_str();
        let end = words.find(" (os error ").unwrap_or(words.len());
        let _ = errors.write_all(&words.as_bytes()[0..end]);
    }
    let _ = errors.write_all(b"\n");
}

// Tells that the file that this word names could not be used, and why.
fn tell_error(rt: &HostRuntime, word: usize, error: &io::Error) {
    tell(rt, word, "");
    tell_words(rt, error);
}

// Tells which question the image on OLD got a no to, as document 01 counts them.
fn tell_refusal(rt: &HostRuntime, refusal: Refusal) {
    if refusal == Refusal::Length {
        tell(
            rt,
            3,
            ": refused 1, it has not the 65536 bytes of 64 nodes\n",
        );
        return;
    }
    tell(rt, 3, ": refused 2, its image is not sound\n");
}

// Reads until the buffer is full, the input ends or a read fails: how many bytes.
fn read_full(file: &mut File, buffer: &mut [u8]) -> usize {
    let mut done = 0;
    while done < buffer.len() {
        let count = file.read(&mut buffer[done..]).unwrap_or(0);
        if count == 0 {
            return done;
        }
        done += count;
    }
    done
}

// Reads a file into the store, or refuses it by the first question that its image gets a no to. One byte more is asked for, since a longer file
// begins with as many.
fn read_image(file: &mut File, store: &mut [u8]) -> Result<(), Refusal>
    requires { length store.old ≡ 65536 }
    ensures { OnOk result (sound store.new ≡ true) }
{
    let count = read_full(file, store);
    if count < store.len() {
        return Err(Refusal::Length);
    }
    let mut more = [0u8; 1];
    if 0 < read_full(file, &mut more) {
        return Err(Refusal::Length);
    }
    if !soundness::is_sound(store) {
        return Err(Refusal::Unsound);
    }
    Ok(())
}

// The store to begin with: the image on OLD, or where there is none a store just made. False where that image is not taken.
pub fn begin(rt: &HostRuntime, store: &mut [u8]) -> bool
    requires { length store.old ≡ 65536 }
    ensures { result ≡ true → sound store.new ≡ true }
{
    if !has_words(rt, 3) {
        let _ = make::make(store); // 65,536 bytes are whole nodes, which make does not refuse
        return true;
    }
    let mut file = match File::open(rt, OLD) {
        Ok(file) => file,
        Err(error) => {
            tell_error(rt, 3, &error);
            return false;
        }
    };
    match read_image(&mut file, store) {
        Ok(()) => true,
        Err(refusal) => {
            tell_refusal(rt, refusal);
            false
        }
    }
}

// Writes the image to NEW and has it brought to the disk.
fn write_image(rt: &HostRuntime, store: &[u8]) -> io::Result<()> {
    let mut file = OpenOptions::new().write(true).open(rt, NEW)?;
    file.write_all(store)?;
    file.sync_all()
}

// Says on DONE that all is done.
fn say_done(rt: &HostRuntime) -> io::Result<()> {
    let mut file = OpenOptions::new().write(true).open(rt, DONE)?;
    file.write_all(b"\n")
}

// After every line was read and every answer printed: leaves the image on NEW, where that is there, and says on DONE that all is done.
pub fn end(rt: &HostRuntime, store: &[u8]) {
    if !has_words(rt, 1) {
        return;
    }
    if has_words(rt, 2) {
        if let Err(error) = write_image(rt, store) {
            tell_error(rt, 2, &error);
            return;
        }
    }
    let _ = say_done(rt); // where that fails, the caller learns it by the byte that is missing
}

// Tells why not all of the input was read or not every answer printed.
pub fn tell_failure(rt: &HostRuntime, error: &io::Error) {
    if !has_words(rt, 1) {
        return;
    }
    let _ = rt.stderr().write_all(b"splicelog: input or output");
    tell_words(rt, error);
}
