// Lines that were found, up to the first that opens a file. This loop stands apart from the files that open files:
// into a function that calls itself the compiler builds little, and here it is to build all that a line takes.
#![tactic(auto)]

ghost use Rattle.lists.specs.Lent.{Spare, Leaves};
ghost use Rattle.apply_stretch.specs.Stretches.{StretchAsk, StretchMeets};
ghost use Rattle.hold_reading.specs.Buffers.{SameRoom, buffers};

use apply_lines::read_line;
use hold_reading::{Counts, Line, LineTurn, State};
use slices::words::at;
use spec::Refusal;

// Where lines that were found begin: their text among all texts, and the first of them among the numbers.
#[derive(Clone, Copy)]
pub struct FoundPlace {
    pub base: usize,
    pub from: usize,
}

// All lines are answered; or the one at a place of the numbers opens a file by a raw path, from one place of the line
// to another, maybe in a new scope.
// No `Result`, as `LineTurn` is none.
#[derive(Clone, Copy)]
pub enum Stretch {
    Answered(Result<State, Refusal>),
    Opens(usize, Counts, bool, usize, usize),
}

// Reads the lines that were found, from a place of the numbers on, up to the first that opens a file: each is two
// numbers, its start and its end. Where a line does not reach to the text's end, a newline ends it.
pub fn read_stretch(
    t: &[u8; 256],
    m: &[u8],
    found: &[u32],
    p: FoundPlace,
    names: &mut [u8],
    index: &mut [u32],
    texts: &mut [u8],
    bind: &mut [u32],
    graph: &mut [u32],
    word: &mut [u8],
    s: State,
) -> Stretch
    requires { StretchAsk t.now m.now p.base found.now p.from (buffers names.old index.old texts.old bind.old graph.old) word.old s.counts s.open }
    ensures { Leaves (SameRoom (buffers names.old index.old texts.old bind.old graph.old) (buffers names.new index.new texts.new bind.new graph.new) × (Spare word.old word.new)) (StretchMeets p.base m.now found.now p.from (buffers names.old index.old texts.old bind.old graph.old) s.counts s.open (buffers names.new index.new texts.new bind.new graph.new) result) }
{
    let mut kept = s;
    let mut k = p.from;
    // a `while`: the proof follows k, which a `for` over `step_by(2)` would leave to its iterator
    while k < found.len() {
        let start = at(found, k);
        let end = at(found, k + 1);
        let line = Line {
            start: p.base + start,
            ended: end < m.len(),
        };
        match read_line(
            t,
            line,
            &m[start..end],
            names,
            index,
            texts,
            bind,
            graph,
            word,
            kept,
        ) {
            LineTurn::Answered(Ok(next)) => {
                kept = next;
                k += 2;
            }
            LineTurn::Answered(Err(r)) => {
                return Stretch::Answered(Err(r));
            }
            LineTurn::Opens(d, sub, from, to) => {
                return Stretch::Opens(k, d, sub, from, to);
            }
        }
    }
    Stretch::Answered(Ok(kept))
}
