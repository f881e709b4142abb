// The graph of steps: the order of the needed ones, or a circle among them.
#![tactic(auto)]

ghost use Rattle.std.specs.Prelude.{◌≡◌, ◌+◌, ◌≤◌, length, take};
ghost use Rattle.hold_columns.specs.Columns.{FilesMade, Shown};
ghost use Rattle.lists.specs.Lent.{Spare, Leaves};
ghost use Rattle.lists.specs.Parts.{part};
ghost use Rattle.spec.specs.Promises.{filled};
ghost use Rattle.graph_order.specs.Sort.{NeededAsked, Showable, SortShows, NeededSorted};
ghost use Rattle.graph_order.specs.Walk.{OpenInput, Finds, Starts, Explored, RootAsked, RootSeen, SortAsked, FindsOrder};

use hold_columns::{Columns, inputs, maker};
use slices::words::{at, zero_words_from};
use spec::limits::STEPS;

// How far the sorting is: from so many roots it has walked, and so many steps are in order.
#[derive(Clone, Copy)]
struct Reached {
    roots: usize,
    steps: usize,
}

// The place, from `from` on, of the first file whose maker is not done, or the number of files: a number there too,
// since it is how many of them are passed, which `next` holds.
fn next_open(fs: &[u32], made: &[u32], seen: &[u32], from: usize) -> usize
    requires { FilesMade (length seen.now) fs.now made.now × (from ≤ length fs.now) }
    ensures { OpenInput fs.now made.now seen.now from result }
{
    for i in from..fs.len() {
        let m = maker(fs, i, made);
        if m == 0 {
            continue;
        }
        if at(seen, m - 1) != 2 {
            return i;
        }
    }
    fs.len()
}

// The first place of x, or the length. An `Option` would be no plainer: its one caller looks for a step on the path.
fn place(l: &[u32], x: usize) -> usize
    ensures { Finds l.now x result }
{
    for j in 0..l.len() {
        if at(l, j) == x {
            return j;
        }
    }
    l.len()
}

// Walks from a step to the makers of its inputs, and on to theirs, with `path` from that step to the one where the
// walk stands. A step whose inputs' makers are all done is done, and comes next in `order`; an input's maker that is
// on the path closes a circle. How many steps are in order then, or the places on the path where the circle lies.
fn explore(
    g: &Columns,
    seen: &mut [u32],
    next: &mut [u32],
    path: &mut [u32],
    order: &mut [u32],
    root: usize,
    already: usize,
) -> Result<usize, (usize, usize)>
    requires { Starts g.now.mentions.now g.now.ends.now g.now.made.now seen.old next.old path.old order.old root already }
    ensures { Explored g.now.mentions.now g.now.ends.now g.now.made.now (length order.old) (take already order.old) root seen.new next.new path.new order.new result }
{
    seen[root] = 1;
    path[0] = root as u32;
    let mut depth: usize = 1;
    let mut done = already;
    // The depth goes up and down, so that no `for` counts it.
    while 0 < depth {
        let s = at(path, depth - 1);
        let fs = inputs(g.mentions, g.ends, s);
        let i = next_open(fs, g.made, seen, at(next, s));
        next[s] = i as u32;
        if i < fs.len() {
            let m = maker(fs, i, g.made) - 1;
            if at(seen, m) == 1 {
                return Err((place(path, m), depth));
            }
            seen[m] = 1;
            path[depth] = m as u32;
            depth += 1;
        } else {
            seen[s] = 2;
            order[done] = s as u32;
            done += 1;
            depth -= 1;
        }
    }
    Ok(done)
}

// The walk from the maker of the next root, if it has one that was not seen before.
fn explore_root(
    g: &Columns,
    roots: &[u32],
    reached: Reached,
    seen: &mut [u32],
    next: &mut [u32],
    path: &mut [u32],
    order: &mut [u32],
) -> Result<usize, (usize, usize)>
    requires { RootAsked g.now.mentions.now g.now.ends.now g.now.made.now roots.now reached.roots seen.old next.old path.old order.old reached.steps }
    ensures { RootSeen g.now.mentions.now g.now.ends.now g.now.made.now roots.now (length order.old) (reached.roots + 1) seen.new next.new path.new order.new result }
{
    let done = reached.steps;
    let k = maker(roots, reached.roots, g.made);
    if k == 0 {
        return Ok(done);
    }
    if at(seen, k - 1) != 0 {
        return Ok(done);
    }
    explore(g, seen, next, path, order, k - 1, done)
}

// The needed steps in an order, or a circle among them: the walks from all roots, one after another.
fn sort(
    g: &Columns,
    roots: &[u32],
    seen: &mut [u32],
    next: &mut [u32],
    path: &mut [u32],
    order: &mut [u32],
) -> Result<usize, (usize, usize)>
    requires { SortAsked g.now.mentions.now g.now.ends.now g.now.made.now roots.now seen.old next.old path.old order.old }
    ensures { Leaves (Spare seen.old seen.new × Spare next.old next.new) (FindsOrder g.now.mentions.now g.now.ends.now g.now.made.now roots.now (length order.old) path.new order.new result) }
{
    let mut done: usize = 0;
    for i in 0..roots.len() {
        let reached = Reached {
            roots: i,
            steps: done,
        };
        done = explore_root(g, roots, reached, seen, next, path, order)?;
    }
    Ok(done)
}

// Puts l at the front of the list, and zeros after it.
pub fn fill(list: &mut [u32], l: &[u32])
    requires { length l.now ≤ length list.old }
    ensures { list.new ≡ filled l.now list.old }
{
    list[..l.len()].copy_from_slice(l);
    zero_words_from(list, l.len());
}

// Puts the steps at these places of the path at the front of the list, and zeros after them; their number.
fn show(path: &[u32], from: usize, to: usize, list: &mut [u32]) -> usize
    requires { Showable path.now from to list.old }
    ensures { Shown (part path.now from to) list.old result list.new }
{
    fill(list, &path[from..to]);
    to - from
}

// Sorts, and shows a circle in the list.
fn sort_or_show(
    g: &Columns,
    roots: &[u32],
    seen: &mut [u32],
    next: &mut [u32],
    path: &mut [u32],
    order: &mut [u32],
    list: &mut [u32],
) -> Result<usize, usize>
    requires { SortShows g.now.mentions.now g.now.ends.now g.now.made.now roots.now seen.old next.old path.old order.old list.old }
    ensures { Leaves (Spare seen.old seen.new × Spare next.old next.new × Spare path.old path.new) (NeededSorted g.now.mentions.now g.now.ends.now g.now.made.now roots.now (length order.old) order.new list.old list.new result) }
{
    // no `map_err`: its closure would have to hold the list
    match sort(g, roots, seen, next, path, order) {
        Ok(k) => Ok(k),
        Err((from, to)) => Err(show(path, from, to, list)),
    }
}

// The needed steps in an order at the front of `order`, and how many; or a circle among them at the front of the list
// with zeros after it, and its length.
pub fn order_needed(
    g: &Columns,
    roots: &[u32],
    order: &mut [u32],
    list: &mut [u32],
) -> Result<usize, usize>
    requires { NeededAsked g.now.mentions.now g.now.ends.now g.now.made.now roots.now order.old list.old }
    ensures { NeededSorted g.now.mentions.now g.now.ends.now g.now.made.now roots.now (length order.old) order.new list.old list.new result }
{
    let n = order.len();
    let mut seen = [0u32; STEPS];
    let mut next = [0u32; STEPS];
    let mut path = [0u32; STEPS];
    sort_or_show(
        g,
        roots,
        &mut seen[..n],
        &mut next[..n],
        &mut path[..n],
        order,
        list,
    )
}
