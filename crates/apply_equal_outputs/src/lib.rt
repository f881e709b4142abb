// Two equal outputs in a line. The outputs so far stand in a table that is sorted by what they expand to, so each is
// compared with few others.
#![tactic(auto)]

ghost use Rattle.apply_equal_outputs.specs.Sorted.{EntryAsks, PathOrdered, SortedAsks, PlaceIn, AddAsks, PathAdded, TableAsks, ComparesOutputs, RoomAsks, Twice};

use arena::insert;
use cut_forms::paths::next_listed;
use expand_order::order;
use hold_reading::Counts;
use hold_reading::columns::COLUMNS_END;
use slices::words::at;
use std::cmp::Ordering;

// How the path from one place to another compares with that of an entry.
fn order_at(
    t: &[u8; 256],
    l: &[u8],
    from: usize,
    to: usize,
    texts: &[u8],
    bind: &[u32],
    c: Counts,
    table: &[u32],
    k: usize,
) -> Ordering
    requires { EntryAsks t.now l.now texts.now bind.now c.entries from to table.now k }
    ensures { PathOrdered l.now texts.now bind.now c from to table.now k result }
{
    let v = at(table, k);
    let a = v / 65536;
    let b = v % 65536;
    order(t, &l[from..to], &l[a..b], texts, bind, c.entries)
}

// Where the path from one place to another belongs in the table, by halving; `None` if an equal one is there.
fn place_for(
    t: &[u8; 256],
    l: &[u8],
    from: usize,
    to: usize,
    texts: &[u8],
    bind: &[u32],
    c: Counts,
    table: &[u32],
) -> Option<usize>
    requires { SortedAsks t.now l.now texts.now bind.now c from to table.now }
    ensures { PlaceIn l.now texts.now bind.now c from to table.now result }
{
    let mut low = 0;
    let mut high = table.len();
    while low < high {
        let mid = low + (high - low) / 2;
        match order_at(t, l, from, to, texts, bind, c, table, mid) {
            Ordering::Less => {
                high = mid;
            }
            Ordering::Greater => {
                low = mid + 1;
            }
            Ordering::Equal => {
                return None;
            }
        }
    }
    Some(low)
}

// Whether the path from one place to another is in the table of n entries. Where it is not, it is put in.
fn is_taken(
    t: &[u8; 256],
    l: &[u8],
    from: usize,
    to: usize,
    texts: &[u8],
    bind: &[u32],
    c: Counts,
    table: &mut [u32],
    n: usize,
) -> bool
    requires { AddAsks t.now l.now texts.now bind.now c from to table.old n }
    ensures { PathAdded l.now texts.now bind.now c from to table.old n table.new result }
{
    let Some(p) = place_for(t, l, from, to, texts, bind, c, &table[..n]) else {
        return true;
    };
    insert(table, n, p, from * 65536 + to);
    false
}

// Whether two paths of a list are equal. The table has room for all of them. A turn is for two paths, so that
// `is_taken` is called at two places: the compiler then leaves it a function of its own, with its compares in its
// loop, and the reader's function for a line, which this one is built into, stays small enough to be built into its
// caller.
fn has_equal(
    t: &[u8; 256],
    l: &[u8],
    start: usize,
    texts: &[u8],
    bind: &[u32],
    c: Counts,
    table: &mut [u32],
) -> bool
    requires { TableAsks t.now l.now texts.now bind.now c start table.old }
    ensures { ComparesOutputs l.now texts.now bind.now c start table.old table.new result }
{
    let mut n = 0;
    let mut i = start;
    while let Some((from, to)) = next_listed(t, l, i) {
        if is_taken(t, l, from, to, texts, bind, c, table, n) {
            return true;
        }
        n += 1;
        let Some((after, end)) = next_listed(t, l, to) else {
            return false;
        };
        if is_taken(t, l, after, end, texts, bind, c, table, n) {
            return true;
        }
        n += 1;
        i = end;
    }
    false
}

// Whether two paths of a list are equal. The table lies in the graph's buffer, behind its columns.
pub fn has_equal_outputs(
    t: &[u8; 256],
    l: &[u8],
    start: usize,
    texts: &[u8],
    bind: &[u32],
    graph: &mut [u32],
    c: Counts,
) -> bool
    requires { RoomAsks t.now l.now texts.now bind.now graph.old c start }
    ensures { Twice l.now texts.now bind.now graph.old c start graph.new result }
{
    has_equal(t, l, start, texts, bind, c, &mut graph[COLUMNS_END..])
}
