// The rows of the work area, 128 bytes each: a row as a value; where the next leaf or the next interior node of the packed form ends; and the marks,
// which say at which row a node of the level below starts. Relies on octets; specs/Rows/Area has the layout of a row.
ghost use Rattle.std.specs.Prelude.{◌≡◌, ℕ, ◌+◌, ◌*◌, ◌-◌, ◌<◌, ◌≤◌, length, drop};
ghost use Rattle.packed.specs.Form.Chunk.{end_of};
ghost use Rattle.packed.specs.Rows.Area.{RowFits, RowIs, RowsFit, row_adds, leaf_end};
ghost use Rattle.packed.specs.Rows.Branches.{mark_at, low_of_row, node_end, weight_at};
ghost use Rattle.packed.specs.Rows.Puts.{put_mark};
ghost use Rattle.packed.specs.Rows.Remark.{clear_marks, start_weight};
ghost use Rattle.packed.specs.Build.Pairs.{leaf_lifts};

// A row: a path and its value, no longer than their places.
#[derive(Clone, Copy)]
pub struct Row<'a> {
    pub path: &'a [u8],
    pub value: &'a [u8],
    pub ghost path_short: { length path.now ≤ 64 },
    pub ghost value_short: { length value.now ≤ 60 },
}

// Row `i` of the area.
pub fn row_at(area: &[u8], i: usize) -> Row<'_>
    requires { RowFits i area.now }
    ensures { RowIs i area.now result.path.now result.value.now }
{
    let at = i * 128;
    let path = &area[at + 4..];
    let value = &area[at + 68..];
    Row {
        path: &path[..area[at] as usize],
        value: &value[..area[at + 1] as usize],
    }
}

// The low pivot of what starts at row `i`: the row's path, and nothing at the first row.
pub fn low_pivot(area: &[u8], i: usize) -> &[u8]
    requires { RowFits i area.now }
    ensures { (result.now ≡ low_of_row area.now i) × (length result.now ≤ 64) }
{
    if i == 0 {
        return &area[..0];
    }
    row_at(area, i).path
}

// A path without its first `k` bytes; nothing of a shorter one.
pub fn without_first(path: &[u8], k: usize) -> &[u8]
    ensures { result.now ≡ drop k path.now }
{
    if path.len() < k {
        return &path[..0];
    }
    &path[k..]
}

// How many bytes a node lifts that starts at row `i` and ends before row `j`.
pub fn lifted(area: &[u8], m: usize, i: usize, j: usize) -> usize
    requires { RowsFit m area.now × (i < j) × (j ≤ m) }
    ensures { result ≡ leaf_lifts m area.now i j }
{
    let low = low_pivot(area, i);
    if j == m {
        return octets::common_length(low, &[255]);
    }
    octets::common_length(low, row_at(area, j).path)
}

// The row before which a node ends: it has `used` bytes in use, may go on at row `from`, and row `t` adds `weigh(t)`.
fn end_by<F: Fn(usize) -> usize>(m: usize, from: usize, used: usize, weigh: F) -> usize
    requires { (from ≤ m) × (used ≤ 2000) × ((t : ℕ) → t < m → F.pre weigh t) × ((t w : ℕ) → t < m → F.post weigh t w → w ≤ 600) }
    ensures meant { (weight : ℕ → ℕ) → ((t w : ℕ) → t < m → F.post weigh t w → w ≡ weight t) → result ≡ end_of weight m from used }
    ensures within { (from ≤ result) × (result ≤ m) }
{
    let mut sum = used;
    for t in from..m {
        let w = weigh(t);
        if image::ENTRIES_LIMIT < sum + w {
            return t;
        }
        sum += w;
    }
    m
}

// What row `i` adds to a leaf.
pub fn row_weight(area: &[u8], i: usize) -> usize
    requires { RowFits i area.now }
    ensures { (result ≡ row_adds area.now i) × (result < 600) }
{
    let row = row_at(area, i);
    6 + row.path.len() + row.value.len()
}

// The row before which a leaf ends: it has `used` bytes in use, and may go on at row `from`.
pub fn leaf_end(area: &[u8], m: usize, from: usize, used: usize) -> usize
    requires { RowsFit m area.now × (from ≤ m) × (used ≤ 2000) }
    ensures { result ≡ leaf_end m area.now from used }
{
    end_by(m, from, used, |t| row_weight(area, t))
}

pub fn mark_at(area: &[u8], i: usize) -> usize
    requires { i * 128 + 4 ≤ length area.now }
    ensures { (result ≡ mark_at area.now i) × (result < 65536) }
{
    octets::u16_at(area, i * 128 + 2)
}

// What row `i` adds to a node of the level above.
fn weight_at(area: &[u8], i: usize) -> usize
    requires { RowFits i area.now }
    ensures { (result ≡ weight_at area.now i) × (result < 300) }
{
    if mark_at(area, i) == 0 {
        return 0;
    }
    6 + row_at(area, i).path.len()
}

// The row before which a node of the level above ends: it has `used` bytes in use, and may go on at row `from`, which is not the first.
pub fn node_end(area: &[u8], m: usize, from: usize, used: usize) -> usize
    requires { RowsFit m area.now × (1 ≤ from) × (from ≤ m) × (used ≤ 1016) }
    ensures { (result ≡ node_end m area.now from used) × (from ≤ result) × (result ≤ m) }
{
    end_by(m, from, used, |t| weight_at(area, t))
}

// A mark.
pub fn put_mark(area: &mut [u8], i: usize, v: usize)
    requires { (i * 128 + 4 ≤ length area.old) × (v < 65536) }
    ensures { area.new ≡ put_mark area.old i v }
{
    octets::put_u16(area, i * 128 + 2, v);
}

// No marks on the rows from `from` up to `to`.
pub fn clear_marks(area: &mut [u8], from: usize, to: usize)
    requires { (to * 128 ≤ length area.old) × (from ≤ to) }
    ensures { area.new ≡ clear_marks (to - from) area.old from }
{
    for i in from..to {
        put_mark(area, i, 0);
    }
}

// What a node of the level above has in use that starts at row `i`.
pub fn start_weight(area: &[u8], i: usize) -> usize
    requires { RowFits i area.now }
    ensures { (result ≡ start_weight area.now i) × (result < 300) }
{
    6 + low_pivot(area, i).len()
}
