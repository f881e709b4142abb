// The refusals under 8 of a build line: an empty path, an output of an earlier step, two equal outputs.
#![tactic(auto)]

ghost use Rattle.lists.specs.Lent.{Spare, Leaves};
ghost use Rattle.apply_bad_paths.specs.Asks.{BuildLineAsks, InputsChecked, PathsChecked};
ghost use Rattle.hold_reading.specs.Buffers.{buffers};

use apply_equal_outputs::has_equal_outputs;
use apply_path_checks::{PathKind, PathList, has_wrong};
use cut_forms::BuildPlaces;
use hold_reading::Counts;

// "empty path" (8), among the inputs of every kind.
fn has_wrong_input(
    t: &[u8; 256],
    l: &[u8],
    p: BuildPlaces,
    names: &[u8],
    index: &[u32],
    texts: &[u8],
    bind: &[u32],
    graph: &[u32],
    word: &mut [u8],
    c: Counts,
) -> bool
    requires { BuildLineAsks t.now l.now (buffers names.now index.now texts.now bind.now graph.now) word.old c p }
    ensures { Leaves (Spare word.old word.new) (InputsChecked l.now (buffers names.now index.now texts.now bind.now graph.now) c p result) }
{
    let kind = PathKind::Input;
    let ins = PathList { start: p.ins, kind };
    if has_wrong(t, l, ins, names, index, texts, bind, graph, word, c) {
        return true;
    }
    let implicit = PathList {
        start: p.implicit,
        kind,
    };
    if has_wrong(t, l, implicit, names, index, texts, bind, graph, word, c) {
        return true;
    }
    let order = PathList {
        start: p.order,
        kind,
    };
    has_wrong(t, l, order, names, index, texts, bind, graph, word, c)
}

// "empty path, output made twice (also within one step)" (8), of a build line. The columns of the graph stay; behind
// them lies a table of the outputs. The word buffer is working space.
pub fn bad_paths(
    t: &[u8; 256],
    l: &[u8],
    p: BuildPlaces,
    names: &[u8],
    index: &[u32],
    texts: &[u8],
    bind: &[u32],
    graph: &mut [u32],
    word: &mut [u8],
    c: Counts,
) -> bool
    requires { BuildLineAsks t.now l.now (buffers names.now index.now texts.now bind.now graph.old) word.old c p }
    ensures { Leaves (Spare word.old word.new) (PathsChecked l.now (buffers names.now index.now texts.now bind.now graph.old) c p graph.new result) }
{
    let outs = PathList {
        start: p.outs,
        kind: PathKind::Output,
    };
    if has_wrong(t, l, outs, names, index, texts, bind, graph, word, c) {
        return true;
    }
    if has_wrong_input(t, l, p, names, index, texts, bind, graph, word, c) {
        return true;
    }
    has_equal_outputs(t, l, p.outs, texts, bind, graph, c)
}
