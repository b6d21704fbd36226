// Rows put at their places among rows of the work area that rise: one row, the place by halving and then a move of the rows behind it, or in the
// place of its path's row; or rows that rise too, merged in one pass. Relies on packed (a row read and written) and on octets.
ghost use Rattle.std.specs.Prelude.{◌≡◌, true, ◌+◌, ◌*◌, ◌-◌, ◌<◌, ◌≤◌, length, take, drop};
ghost use Rattle.image.specs.Prelude.{none};
ghost use Rattle.image.specs.Table.{rising, find, with_row};
ghost use Rattle.octets.specs.Put.{put};
ghost use Rattle.packed.specs.Rows.Area.{RowsFit, RowFits, rows_of};
ghost use Rattle.dump.specs.Insertion.Insertion.{rank, slot, Inserted, Replaced, Apart, Laid, laid, RowMerged, Merged};

use packed::rows::{Row, row_at};

// The first of the rows from `from` up to `m`, which rise, that does not come before a path; `m` if there is none.
pub fn place_of(area: &[u8], from: usize, m: usize, path: &[u8]) -> usize
    requires { RowsFit m area.now × (from ≤ m) × (rising (rows_of (m - from) area.now from) ≡ true) }
    ensures { (result ≡ from + rank path.now (rows_of (m - from) area.now from)) × (from ≤ result) × (result ≤ m) }
{
    let mut low = from;
    let mut high = m;
    while low < high {
        let middle = low + (high - low) / 2;
        if octets::precedes(row_at(area, middle).path, path) {
            low = middle + 1;
        } else {
            high = middle;
        }
    }
    low
}

// A copy of row `from` as row `to`. By way of a local array: so the compiler makes a few wide copies of it.
fn copy_row(area: &mut [u8], from: usize, to: usize)
    requires { (from * 128 + 128 ≤ length area.old) × (to * 128 + 128 ≤ length area.old) }
    ensures { area.new ≡ put area.old (to * 128) (slot area.old from) }
{
    let mut row = [0u8; 128];
    let start = from * 128;
    let end = start + 128;
    octets::copy_at(&mut row, 0, &area[start..end]);
    octets::copy_at(area, to * 128, &row);
}

// The rows from `i` up to `m` moved up by some places, the last first.
fn move_rows(area: &mut [u8], i: usize, m: usize, by: usize)
    requires { (i ≤ m) × (1 ≤ by) × ((m + by) * 128 ≤ length area.old) }
    ensures { area.new ≡ put area.old ((i + by) * 128) (take ((m - i) * 128) (drop (i * 128) area.old)) }
{
    for at in (i..m).rev() {
        copy_row(area, at, at + by);
    }
}

// A row at its place among the rows from `from` up to `m`, which rise and do not have its path.
pub fn insert_row(area: &mut [u8], from: usize, m: usize, row: Row<'_>)
    requires { RowsFit m area.old
        × (from ≤ m)
        × (m * 128 + 128 ≤ length area.old)
        × (rising (rows_of (m - from) area.old from) ≡ true)
        × (find row.path.now (rows_of (m - from) area.old from) ≡ none) }
    ensures { Inserted from m area.old area.new row.entry.path.now row.entry.value.now }
{
    let i = place_of(area, from, m, row.path);
    move_rows(area, i, m, 1);
    packed::put_row(area, i, row);
}

// The row of the same path among the rows from `from` up to `m`, which rise, gets this row's value. Gives whether there is one.
fn replace_row(area: &mut [u8], from: usize, m: usize, row: Row<'_>) -> bool
    requires { RowsFit m area.old
        × (from ≤ m)
        × (rising (rows_of (m - from) area.old from) ≡ true) }
    ensures { Replaced from m area.old area.new row.entry.path.now row.entry.value.now result }
{
    let i = place_of(area, from, m, row.path);
    if m <= i {
        return false;
    }
    if !octets::equal(row_at(area, i).path, row.path) {
        return false;
    }
    packed::put_row(area, i, row);
    true
}

// The row's path gets its value: in its row, among those up to `m` or among those from there up to `all`, or else in a new row among the latter.
// Gives how many rows there are then.
pub fn set_row(area: &mut [u8], m: usize, all: usize, row: Row<'_>) -> usize
    requires { Apart area.old 0 m all
        × (128 * length (with_row row.path.now row.value.now (laid area.old m all)) ≤ length area.old) }
    ensures { Laid m area.old area.new result (with_row row.entry.path.now row.entry.value.now (laid area.old m all)) }
{
    if replace_row(area, 0, m, row) {
        return all;
    }
    if replace_row(area, m, all, row) {
        return all;
    }
    insert_row(area, m, all, row);
    all + 1
}

// Row `left` of those set aside, the last that is not merged yet, at its place among the rows from `first` up to `high`. Those behind its
// place make room for it and for the rows before it, which are set aside too. Gives its place.
fn merge_row(area: &mut [u8], first: usize, high: usize, aside: &[u8], left: usize) -> usize
    requires { RowsFit high area.old
        × (first ≤ high)
        × ((high + left + 1) * 128 ≤ length area.old)
        × RowFits left aside.now
        × (rising (rows_of (high - first) area.old first) ≡ true) }
    ensures { RowMerged area.old area.new aside.now first high left result }
{
    let from = left * 128;
    let to = from + 128;
    let i = place_of(area, first, high, row_at(aside, left).path);
    move_rows(area, i, high, left + 1);
    octets::copy_at(area, (i + left) * 128, &aside[from..to]);
    i
}

// At most 32 rows from `middle` up to `end` merged into those from `first` up to `middle`. They are set aside and go in from the last on,
// so that each of the other rows moves once, to where it stays.
fn merge_chunk(area: &mut [u8], first: usize, middle: usize, end: usize)
    requires { Apart area.old first middle end × (end ≤ middle + 32) }
    ensures { Merged area.old area.new first middle end }
{
    let mut aside = [0u8; 4096];
    let start = middle * 128;
    let stop = end * 128;
    octets::copy_at(&mut aside, 0, &area[start..stop]);
    let mut high = middle;
    for left in (0..end - middle).rev() {
        high = merge_row(area, first, high, &aside, left);
    }
}

// The rows from `middle` up to `end` merged into those from `first` up to `middle`.
pub fn merge_rows(area: &mut [u8], first: usize, middle: usize, end: usize)
    requires { Apart area.old first middle end }
    ensures { Merged area.old area.new first middle end }
{
    if end <= middle {
        return;
    }
    if middle <= first {
        return;
    }
    let mut done = middle;
    while 32 < end - done {
        let next = done + 32;
        merge_chunk(area, first, done, next);
        done = next;
    }
    merge_chunk(area, first, done, end);
}
