// The lines of the program: each is read, its call is made, and its text is put into a page that is lent. What a line says is defined in image,
// Program. Relies on: edit, rename, maintain and query for the calls, reading for the fields, writing for the texts, path (question 3 of a list),
// octets.

#![tactic(auto)]

pub mod reading;
pub mod writing;

ghost use Rattle.std.specs.Prelude.{◌+◌, ◌<◌, ◌≤◌, ◌≡◌, true, length};
ghost use Rattle.image.specs.Path.{path_or_empty};
ghost use Rattle.image.specs.Table.{rows_below};
ghost use Rattle.image.specs.Sound.{table_of};
ghost use Rattle.image.specs.Calls.{drops, clear, move};
ghost use Rattle.image.specs.Program.{acting, getting, listing, path_of, value_of, rows_text, word_alone, putting};
ghost use Rattle.script.specs.Writing.{Wrote};
ghost use Rattle.script.specs.Answered.{Held, Answered, Says, row_limit};
ghost use Rattle.script.specs.Rows.{Present, RowWrote};
ghost use Rattle.script.specs.Input.{Feeds, Finishes};
ghost use Rattle.script.specs.Line.{path_command, two_command, rest_command};

// A path that the store holds, a space, its value and a line feed: where the line ends.
fn put_row(store: &[u8], path: &[u8], out: &mut [u8], at: usize) -> usize
    requires { Held store.now out.old × Present store.now path.now × (at + row_limit ≤ length out.old) }
    ensures { RowWrote store.now path.now out.old at result out.new }
{
    let last = path.len() - 1;
    let gap = writing::put_exchanged(&path[0..last], 0, 47, out, at);
    let start = writing::put_byte(32, out, gap);
    let mut value = [0u8; image::VALUE_LIMIT];
    let found = query::get(store, path, &mut value);
    let Ok(n) = found else {
        return start; // the path is there, so get finds it
    };
    let stop = writing::put_value(&value[0..n], out, start);
    writing::put_byte(10, out, stop)
}

// The line of each path below the given one, and the end.
fn put_rows(store: &[u8], path: &[u8], out: &mut [u8]) -> usize
    requires { Held store.now out.old × (path_or_empty path.now ≡ true) }
    ensures { Wrote out.old 0 (rows_text (rows_below path.now (table_of store.now))) result out.new }
{
    let mut last = [0u8; 64];
    let mut size = 0;
    let mut at = 0;
    loop {
        let mut key = [0u8; 64];
        let found = query::next(store, path, &last[0..size], &mut key);
        let Ok(n) = found else {
            return writing::put_end(out, at); // next found none
        };
        at = put_row(store, &key[0..n], out, at);
        last = key;
        size = n;
    }
}

// A line of one field: settle or tidy.
fn answer_word(store: &mut [u8], work: &mut [u8], word: &[u8], out: &mut [u8]) -> usize
    requires { Held store.old out.old × (8192 ≤ length work.old) }
    ensures { Answered store.old (word_alone word.now) result out.new store.new }
{
    if octets::equal(word, b"settle") {
        let outcome = maintain::settle(store, work);
        return writing::put_outcome(outcome, out);
    }
    if octets::equal(word, b"tidy") {
        let outcome = maintain::tidy(store, work);
        return writing::put_outcome(outcome, out);
    }
    writing::put_bad(out)
}

// drop PATH
fn answer_drop(store: &mut [u8], work: &mut [u8], text: &[u8], out: &mut [u8]) -> usize
    requires { Held store.old out.old × (8192 ≤ length work.old) × (length text.now ≤ 255) }
    ensures { Answered store.old (acting (drops (path_of text.now))) result out.new store.new }
{
    let mut path = [0u8; 256];
    let n = reading::read_path(text, &mut path);
    let outcome = edit::drop(store, work, &path[0..n]);
    writing::put_outcome(outcome, out)
}

// clear PATH
fn answer_clear(store: &mut [u8], work: &mut [u8], text: &[u8], out: &mut [u8]) -> usize
    requires { Held store.old out.old × (8192 ≤ length work.old) × (length text.now ≤ 255) }
    ensures { Answered store.old (acting (clear (path_of text.now))) result out.new store.new }
{
    let mut path = [0u8; 256];
    let n = reading::read_path(text, &mut path);
    let outcome = edit::clear(store, work, &path[0..n]);
    writing::put_outcome(outcome, out)
}

// get PATH
fn answer_get(store: &[u8], text: &[u8], out: &mut [u8]) -> usize
    requires { Held store.now out.old × (length text.now ≤ 255) }
    ensures { Answered store.now (getting (path_of text.now)) result out.new store.now }
{
    let mut path = [0u8; 256];
    let n = reading::read_path(text, &mut path);
    let mut value = [0u8; image::VALUE_LIMIT];
    let found = query::get(store, &path[0..n], &mut value);
    writing::put_found(found, &value, out)
}

// list PATH
fn answer_list(store: &[u8], text: &[u8], out: &mut [u8]) -> usize
    requires { Held store.now out.old × (length text.now ≤ 255) }
    ensures { Answered store.now (listing (path_of text.now)) result out.new store.now }
{
    let mut path = [0u8; 256];
    let n = reading::read_path(text, &mut path);
    if !path::is_path_or_empty(&path[0..n]) {
        return writing::put_refused(3, out);
    }
    put_rows(store, &path[0..n], out)
}

// put PATH HEX
fn answer_put(store: &mut [u8], work: &mut [u8], text: &[u8], hex: &[u8], out: &mut [u8]) -> usize
    requires { Held store.old out.old × (8192 ≤ length work.old) × (length text.now ≤ 255) × (length hex.now ≤ 255) }
    ensures { Answered store.old (putting (path_of text.now) (value_of hex.now)) result out.new store.new }
{
    let mut value = [0u8; 128];
    let parsed = reading::read_value(hex, &mut value);
    let Some(len) = parsed else {
        return writing::put_bad(out); // odd or wrong hexadecimal
    };
    let mut path = [0u8; 256];
    let n = reading::read_path(text, &mut path);
    let outcome = edit::put(store, work, &path[0..n], &value[0..len]);
    writing::put_outcome(outcome, out)
}

// A line of a word and a path.
fn answer_path(store: &mut [u8], work: &mut [u8], word: &[u8], text: &[u8], out: &mut [u8]) -> usize
    requires { Held store.old out.old × (8192 ≤ length work.old) × (length text.now ≤ 255) }
    ensures { Answered store.old (path_command word.now text.now) result out.new store.new }
{
    if text.len() == 0 {
        return writing::put_bad(out);
    }
    if octets::equal(word, b"drop") {
        return answer_drop(store, work, text, out);
    }
    if octets::equal(word, b"clear") {
        return answer_clear(store, work, text, out);
    }
    if octets::equal(word, b"get") {
        return answer_get(store, text, out);
    }
    if octets::equal(word, b"list") {
        return answer_list(store, text, out);
    }
    writing::put_bad(out)
}

// move PATH PATH
fn answer_move(
    store: &mut [u8],
    work: &mut [u8],
    first: &[u8],
    second: &[u8],
    out: &mut [u8],
) -> usize
    requires { Held store.old out.old × (8192 ≤ length work.old) × (length first.now ≤ 255) × (length second.now ≤ 255) }
    ensures { Answered store.old (acting (move (path_of first.now) (path_of second.now))) result out.new store.new }
{
    let mut from = [0u8; 256];
    let n = reading::read_path(first, &mut from);
    let mut to = [0u8; 256];
    let m = reading::read_path(second, &mut to);
    let outcome = rename::move_paths(store, work, &from[0..n], &to[0..m]);
    writing::put_outcome(outcome, out)
}

// A line of a word and two fields.
fn answer_two(
    store: &mut [u8],
    work: &mut [u8],
    word: &[u8],
    first: &[u8],
    second: &[u8],
    out: &mut [u8],
) -> usize
    requires { Held store.old out.old × (8192 ≤ length work.old) × (length first.now ≤ 255) × (length second.now ≤ 255) }
    ensures { Answered store.old (two_command word.now first.now second.now) result out.new store.new }
{
    if first.len() == 0 {
        return writing::put_bad(out);
    }
    if second.len() == 0 {
        return writing::put_bad(out);
    }
    if octets::equal(word, b"put") {
        return answer_put(store, work, first, second, out);
    }
    if octets::equal(word, b"move") {
        return answer_move(store, work, first, second, out);
    }
    writing::put_bad(out)
}

// A line of a word and what follows its space.
fn answer_rest(store: &mut [u8], work: &mut [u8], word: &[u8], rest: &[u8], out: &mut [u8]) -> usize
    requires { Held store.old out.old × (8192 ≤ length work.old) × (length rest.now ≤ 255) }
    ensures { Answered store.old (rest_command word.now rest.now) result out.new store.new }
{
    let a = reading::find_byte(rest, 32);
    if a == rest.len() {
        return answer_path(store, work, word, rest, out);
    }
    let b = a + 1;
    let second = &rest[b..];
    if reading::find_byte(second, 32) < second.len() {
        return writing::put_bad(out); // a fourth field
    }
    answer_two(store, work, word, &rest[0..a], second, out)
}

// What a line prints, at the front of the page: how many bytes.
pub fn answer_line(store: &mut [u8], work: &mut [u8], line: &[u8], out: &mut [u8]) -> usize
    requires { Held store.old out.old × (8192 ≤ length work.old) }
    ensures { Says store.old line.now result out.new store.new }
{
    if 255 < line.len() {
        return writing::put_bad(out);
    }
    let a = reading::find_byte(line, 32);
    if a == line.len() {
        return answer_word(store, work, line, out);
    }
    let b = a + 1;
    answer_rest(store, work, &line[0..a], &line[b..], out)
}

// After one more byte of input: how many bytes of the line buffer are used, and how many bytes of the page are to be printed.
#[derive(Clone, Copy)]
pub struct Progress {
    pub len: usize,
    pub count: usize,
}

// One byte of input. The line buffer keeps at most 256 bytes of a line: more do not change what it says.
pub fn feed(
    store: &mut [u8],
    work: &mut [u8],
    line: &mut [u8],
    len: usize,
    byte: u8,
    out: &mut [u8],
) -> Progress
    requires { Held store.old out.old × (8192 ≤ length work.old) × (256 ≤ length line.old) × (len ≤ 256) }
    ensures { Feeds store.old line.old len byte result.len result.count line.new out.new store.new }
{
    if byte == 10 {
        let count = answer_line(store, work, &line[0..len], out);
        return Progress { len: 0, count };
    }
    if len < 256 {
        line[len] = byte;
        return Progress {
            len: len + 1,
            count: 0,
        };
    }
    Progress { len, count: 0 }
}

// The end of the input: a last line that lacks its line feed.
pub fn finish(store: &mut [u8], work: &mut [u8], line: &[u8], len: usize, out: &mut [u8]) -> usize
    requires { Held store.old out.old × (8192 ≤ length work.old) × (256 ≤ length line.now) × (len ≤ 256) }
    ensures { Finishes store.old line.now len result out.new store.new }
{
    if len == 0 {
        return 0;
    }
    answer_line(store, work, &line[0..len], out)
}
