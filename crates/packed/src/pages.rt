// The interior nodes of the packed form: the child entries of the marked rows in a page, and the page as a node of the store.
// Relies on rows (a mark is the number of the node that starts at its row), on node's writer and on octets.
ghost use Rattle.std.specs.Prelude.{◌≡◌, ◌+◌, ◌-◌, ◌<◌, ◌≤◌, length};
ghost use Rattle.packed.specs.Rows.Area.{RowFits, RowsFit};
ghost use Rattle.packed.specs.Rows.Branches.{mark_at, node_page};
ghost use Rattle.laws.specs.WriteNode.{write_node};
ghost use Rattle.octets.specs.Put.{put};
ghost use Rattle.node.specs.Whole.{HasNode};
ghost use Rattle.packed.specs.Pages.Nodes.{node_bytes_of};
ghost use Rattle.packed.specs.Pages.Entries.{branch_bytes};

use crate::rows;

// The child entry of row `t`, if it is marked, without the first `k` bytes of its pivot. Gives the place behind it.
fn emit_branch(page: &mut [u8], area: &[u8], t: usize, k: usize, at: usize) -> usize
    requires { RowFits t area.now × (at + length (branch_bytes k 1 area.now t) ≤ length page.old) × (length page.old ≤ 1024) }
    ensures { (page.new ≡ put page.old at (branch_bytes k 1 area.now t)) × (result ≡ at + length (branch_bytes k 1 area.now t)) }
{
    let num = rows::mark_at(area, t);
    if num == 0 {
        return at;
    }
    let pivot = rows::low_pivot(area, t);
    node::writer::write_child(page, at, num, rows::without_first(pivot, k))
}

// The child entries of the marked rows from `from` up to `to`. Gives the place behind them.
pub fn emit_branches(
    page: &mut [u8],
    area: &[u8],
    from: usize,
    to: usize,
    k: usize,
    at: usize,
) -> usize
    requires { RowsFit to area.now × (from ≤ to) × (at + length (branch_bytes k (to - from) area.now from) ≤ length page.old) × (length page.old ≤ 1024) }
    ensures { (page.new ≡ put page.old at (branch_bytes k (to - from) area.now from)) × (result ≡ at + length (branch_bytes k (to - from) area.now from)) }
{
    let mut p = at;
    for t in from..to {
        p = emit_branch(page, area, t, k, p);
    }
    p
}

// The page of the interior node that starts at row `i` and ends before row `j`, written as node `num`.
pub fn write_node(
    store: &mut [u8],
    area: &[u8],
    m: usize,
    i: usize,
    j: usize,
    num: usize,
    level: usize,
)
    requires { RowsFit m area.now
        × (i < j)
        × (j ≤ m)
        × (j < m → 1 ≤ mark_at area.now j)
        × (node_bytes_of m area.now i j ≤ 1016)
        × HasNode store.old num
        × (length store.old ≤ 2000000)
        × (level ≤ 8) }
    ensures { store.new ≡ write_node store.old num (node_page level m area.now i j) }
{
    let mut page = [0u8; 1024];
    let k = rows::lifted(area, m, i, j);
    let end = emit_branches(&mut page, area, i, j, k, 8);
    node::writer::write_page(store, num, &page, image::INTERIOR, level, end - 8);
}
