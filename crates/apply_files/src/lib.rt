// One path of a line is put into the graph's columns: its limits, its number by first mention, and no maker where it
// is new.
#![tactic(auto)]

ghost use Rattle.std.specs.Prelude.{◌≡◌, ◌+◌, ◌≤◌, ◌<◌, length};
ghost use Rattle.lists.specs.Lent.{Spare, Leaves};
ghost use Rattle.spec.specs.Limits.{max_mentions, max_written, max_files};
ghost use Rattle.hold_reading.specs.Held.{columns_end};
ghost use Rattle.apply_files.specs.Path.{path_over, Again, First, PathFits, AddsPath};

use arena::put;
use hold_names::{Added, add, add_listed_name};
use hold_reading::Counts;
use hold_reading::columns::MADE_START;
use spec::limits::{MENTIONS, PATH, WRITTEN};

// Whether a path of n bytes is over a limit. The tests stand one by one: of three joined by `||` the proof gets no
// names to cite.
pub fn path_over(n: usize, c: Counts) -> bool
    requires { (c.mentions ≤ max_mentions) × (c.written ≤ max_written) }
    ensures { result ≡ path_over n c }
{
    if PATH < n {
        return true;
    }
    if MENTIONS <= c.mentions {
        return true;
    }
    WRITTEN < c.written + n
}

// File k once more, whose path has n bytes.
fn note_again(graph: &mut [u32], c: Counts, k: usize, n: usize) -> Counts
    requires { (k < max_files) × (c.paths < max_mentions) × (c.mentions < max_mentions) × (c.written + n ≤ max_written) × (columns_end ≤ length graph.old) }
    ensures { Again graph.old c k n graph.new result }
{
    let paths = c.paths;
    put(graph, paths, k);
    Counts {
        paths: paths + 1,
        mentions: c.mentions + 1,
        written: c.written + n,
        ..c
    }
}

// File k for the first time.
fn note_first(graph: &mut [u32], c: Counts, k: usize, n: usize) -> Counts
    requires { (k < max_files) × (c.files < max_files) × (c.paths < max_mentions) × (c.mentions < max_mentions) × (c.written + n ≤ max_written) × (columns_end ≤ length graph.old) }
    ensures { First graph.old c k n graph.new result }
{
    let files = c.files;
    let paths = c.paths;
    put(graph, paths, k);
    put(graph, MADE_START + files, 0);
    Counts {
        files: files + 1,
        paths: paths + 1,
        mentions: c.mentions + 1,
        written: c.written + n,
        ..c
    }
}

// A path that is within the limits, but for the count of files: the counts with it, or `None` where there is a file
// too many.
pub fn add_path(
    path: &[u8],
    names: &mut [u8],
    index: &mut [u32],
    graph: &mut [u32],
    c: Counts,
) -> Option<Counts>
    requires { PathFits path.now names.old index.old graph.old c }
    ensures { Leaves ((Spare names.old names.new) × (Spare index.old index.new) × (Spare graph.old graph.new)) (AddsPath path.now names.old index.old graph.old c names.new index.new graph.new result) }
{
    let files = c.files;
    match add(names, index, files, path) {
        Added::Old(k) => Some(note_again(graph, c, k, path.len())),
        Added::New(k) => Some(note_first(graph, c, k, path.len())),
        Added::Full => None,
    }
}

// The same for a name that a depfile lists. It stands by itself for speed, as `add_listed_name` does.
pub fn add_listed(
    name: &[u8],
    names: &mut [u8],
    index: &mut [u32],
    graph: &mut [u32],
    c: Counts,
) -> Option<Counts>
    requires { PathFits name.now names.old index.old graph.old c }
    ensures { Leaves ((Spare names.old names.new) × (Spare index.old index.new) × (Spare graph.old graph.new)) (AddsPath name.now names.old index.old graph.old c names.new index.new graph.new result) }
{
    let files = c.files;
    match add_listed_name(names, index, files, name) {
        Added::Old(k) => Some(note_again(graph, c, k, name.len())),
        Added::New(k) => Some(note_first(graph, c, k, name.len())),
        Added::Full => None,
    }
}
