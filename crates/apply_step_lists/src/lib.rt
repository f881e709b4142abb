// The lists of a build line are mentioned, each with its end behind it.
#![tactic(auto)]

ghost use Rattle.lists.specs.Lent.{Spare, Leaves};
ghost use Rattle.apply_step_lists.specs.Lists.{StepListAsks, MentionsList, TwoAsks, Two, FourAsks, Four};
ghost use Rattle.hold_reading.specs.Buffers.{SameRoom, buffers};

use apply_mentions::mention_all;
use arena::put;
use cut_forms::BuildPlaces;
use hold_columns::{IMPLICIT_END, OUTS_END, end_place};
use hold_reading::Counts;
use hold_reading::columns::ENDS_START;

// A list of a build line: where it starts, and its end's number among all ends.
#[derive(Clone, Copy)]
pub struct EndedList {
    pub start: usize,
    pub end: usize,
}

// Two lists: where each starts, and the number of the first one's end; the other's follows.
#[derive(Clone, Copy)]
pub struct EndedPair {
    pub first: usize,
    pub second: usize,
    pub end: usize,
}

// One list. The word buffer is working space.
fn one(
    t: &[u8; 256],
    l: &[u8],
    list: EndedList,
    names: &mut [u8],
    index: &mut [u32],
    texts: &[u8],
    bind: &[u32],
    graph: &mut [u32],
    word: &mut [u8],
    c: Counts,
) -> Option<Counts>
    requires { StepListAsks t.now l.now (buffers names.old index.old texts.now bind.now graph.old) word.old c list.start list.end }
    ensures { Leaves (SameRoom (buffers names.old index.old texts.now bind.now graph.old) (buffers names.new index.new texts.now bind.now graph.new) × (Spare word.old word.new)) (MentionsList l.now list.start list.end (buffers names.old index.old texts.now bind.now graph.old) c names.new index.new graph.new result) }
{
    let d = mention_all(t, l, list.start, names, index, texts, bind, graph, word, c)?;
    put(graph, ENDS_START + list.end, d.paths);
    Some(d)
}

// Two lists.
fn two(
    t: &[u8; 256],
    l: &[u8],
    lists: EndedPair,
    names: &mut [u8],
    index: &mut [u32],
    texts: &[u8],
    bind: &[u32],
    graph: &mut [u32],
    word: &mut [u8],
    c: Counts,
) -> Option<Counts>
    requires { TwoAsks t.now l.now (buffers names.old index.old texts.now bind.now graph.old) word.old c lists.first lists.second lists.end }
    ensures { Leaves (SameRoom (buffers names.old index.old texts.now bind.now graph.old) (buffers names.new index.new texts.now bind.now graph.new) × (Spare word.old word.new)) (Two l.now lists.first lists.second lists.end (buffers names.old index.old texts.now bind.now graph.old) c names.new index.new graph.new result) }
{
    let first = EndedList {
        start: lists.first,
        end: lists.end,
    };
    let d = one(t, l, first, names, index, texts, bind, graph, word, c)?;
    let second = EndedList {
        start: lists.second,
        end: lists.end + 1,
    };
    one(t, l, second, names, index, texts, bind, graph, word, d)
}

// The outputs, then the inputs of each kind.
pub fn four(
    t: &[u8; 256],
    l: &[u8],
    p: BuildPlaces,
    names: &mut [u8],
    index: &mut [u32],
    texts: &[u8],
    bind: &[u32],
    graph: &mut [u32],
    word: &mut [u8],
    c: Counts,
) -> Option<Counts>
    requires { FourAsks t.now l.now (buffers names.old index.old texts.now bind.now graph.old) word.old c p }
    ensures { Leaves (SameRoom (buffers names.old index.old texts.now bind.now graph.old) (buffers names.new index.new texts.now bind.now graph.new) × (Spare word.old word.new)) (Four l.now (buffers names.old index.old texts.now bind.now graph.old) c p names.new index.new graph.new result) }
{
    let steps = c.steps;
    let outs_end = end_place(steps, OUTS_END);
    let outs_ins = EndedPair {
        first: p.outs,
        second: p.ins,
        end: outs_end,
    };
    let d = two(t, l, outs_ins, names, index, texts, bind, graph, word, c)?;
    let implicit_end = end_place(steps, IMPLICIT_END);
    let others = EndedPair {
        first: p.implicit,
        second: p.order,
        end: implicit_end,
    };
    two(t, l, others, names, index, texts, bind, graph, word, d)
}
