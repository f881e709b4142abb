// The refusals under 8 that a path has by itself. Each path of a list is cut and expanded once, and looked at for what
// its kind is refused for.
#![tactic(auto)]

ghost use Rattle.std.specs.Prelude.{◌≡◌, List};
ghost use Rattle.lists.specs.Lent.{Spare, Leaves};
ghost use Rattle.spec.specs.Reading.{Reading, is_made};
ghost use Rattle.hold_bindings.specs.Log.{Logged};
ghost use Rattle.hold_reading.specs.Held.{HoldsReading};
ghost use Rattle.apply_path_checks.specs.Checks.{path_of, wrong_path, Filed, FilesKnown, MadeAsks, IsMade, RawAsks, PathAsks, AnyWrong};
ghost use Rattle.hold_reading.specs.Buffers.{buffers};

use cut_forms::paths::next_listed;
use expand_dollars::expand;
use hold_names::find_name;
use hold_reading::Counts;
use hold_reading::columns::MADE_START;
use slices::words::at;
use spec::limits::PATH;

// No path may be empty. An output of a build line is made by no earlier step, a default by one.
#[derive(Clone, Copy)]
pub enum PathKind {
    Input,
    Output,
    Default,
}

// A list of a line's paths: where it starts, and of which kind they are.
#[derive(Clone, Copy)]
pub struct PathList {
    pub start: usize,
    pub kind: PathKind,
}

// Whether a path is the output of an earlier step: its entry among the makers is not 0.
fn is_output(names: &[u8], index: &[u32], graph: &[u32], c: Counts, path: &[u8]) -> bool
    requires { FilesKnown names.now index.now graph.now c }
    ensures { (log : List Logged) (rd : Reading) → Filed log names.now index.now graph.now c rd → result ≡ is_made path.now rd }
{
    match find_name(names, index, c.files, path) {
        Some(k) => at(graph, MADE_START + k) != 0,
        None => false,
    }
}

// The same of a path of n bytes, which is in the word buffer if it fits there. One over the limit is no name that is
// held.
fn is_made(names: &[u8], index: &[u32], graph: &[u32], c: Counts, word: &[u8], n: usize) -> bool
    requires { MadeAsks names.now index.now graph.now word.now c }
    ensures { IsMade names.now index.now graph.now word.now c n result }
{
    n <= PATH && is_output(names, index, graph, c, &word[..n])
}

// Whether a raw path is refused. The word buffer is left with the path as far as it fits.
fn is_wrong(
    t: &[u8; 256],
    raw: &[u8],
    kind: PathKind,
    names: &[u8],
    index: &[u32],
    texts: &[u8],
    bind: &[u32],
    graph: &[u32],
    word: &mut [u8],
    c: Counts,
) -> bool
    requires { RawAsks t.now raw.now (buffers names.now index.now texts.now bind.now graph.now) word.old c }
    ensures { Leaves (Spare word.old word.new) ((log : List Logged) (rd : Reading) → HoldsReading log (buffers names.now index.now texts.now bind.now graph.now) c rd → result ≡ wrong_path kind rd (path_of rd raw.now)) }
{
    let n = expand(t, raw, texts, bind, c.entries, word);
    if n == 0 {
        return true;
    }
    match kind {
        PathKind::Input => false,
        PathKind::Output => is_made(names, index, graph, c, word, n),
        PathKind::Default => !is_made(names, index, graph, c, word, n),
    }
}

// Whether a path of the list is refused. The word buffer is working space.
pub fn has_wrong(
    t: &[u8; 256],
    l: &[u8],
    list: PathList,
    names: &[u8],
    index: &[u32],
    texts: &[u8],
    bind: &[u32],
    graph: &[u32],
    word: &mut [u8],
    c: Counts,
) -> bool
    requires { PathAsks t.now l.now (buffers names.now index.now texts.now bind.now graph.now) word.old c list.start }
    ensures { Leaves (Spare word.old word.new) (AnyWrong list.kind l.now (buffers names.now index.now texts.now bind.now graph.now) c list.start result) }
{
    let kind = list.kind;
    let mut i = list.start;
    while let Some((from, to)) = next_listed(t, l, i) {
        if is_wrong(
            t,
            &l[from..to],
            kind,
            names,
            index,
            texts,
            bind,
            graph,
            word,
            c,
        ) {
            return true;
        }
        i = to;
    }
    false
}
