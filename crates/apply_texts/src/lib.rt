// A text of a bundle: its lines, some at a time, and the files that they open, each read whole before the lines
// behind.
#![tactic(auto)]

ghost use Rattle.lists.specs.Lent.{Spare, Leaves};
ghost use Rattle.spec.specs.Bundle.{bundle_texts};
ghost use Rattle.spec.specs.Manifest.{read_lines, text_lines};
ghost use Rattle.apply_stretch.specs.Stretches.{lines_placed, read_each};
ghost use Rattle.apply_texts.specs.Texts.{file_opener, TurnAsk, LinesMeet, EachAsk, TextReadAsk, FileAsk};
ghost use Rattle.apply_statements.specs.Asks.{LineMeets};
ghost use Rattle.hold_reading.specs.Buffers.{SameRoom, buffers};

use apply_open::{enter, leave, open_path};
use apply_rules::close;
use apply_stretch::{FoundPlace, Stretch, read_stretch};
use hold_reading::{Counts, Open, State};
use scan_bundle::{record_text, text_base};
use scan_cursor::lines_from;
use slices::words::at;
use spec::Refusal;

// How many numbers the lines take that are found at a time: 32 lines. With fewer and with more of them a manifest was
// read more slowly.
const FOUND: usize = 64;

// A text to be read: the number of its record, and how many files more may be open then.
#[derive(Clone, Copy)]
pub struct Opening {
    pub record: usize,
    pub more: usize,
}

// Where the places of a text begin among those of all texts, and how many files more may be open.
#[derive(Clone, Copy)]
pub struct TextPlace {
    pub base: usize,
    pub more: usize,
}

// The lines that were found, from a place of their numbers on: where the places of their text begin among those of all
// texts, and how many files more may be open.
#[derive(Clone, Copy)]
pub struct TextLines {
    pub base: usize,
    pub from: usize,
    pub more: usize,
}

// Up to which place of the numbers the lines are read, and their answer.
#[derive(Clone, Copy)]
pub struct LinesTurn {
    pub next: usize,
    pub answer: Result<State, Refusal>,
}

// A line that opens a file: its place among all texts, whether in a new scope, and how many files more may be open.
#[derive(Clone, Copy)]
pub struct OpenLine {
    pub start: usize,
    pub sub: bool,
    pub more: usize,
}

// A file that a line opens by its raw path, read whole before the lines behind. "At most eight files are open".
#[cycle(open_file_read_each_read_text_read_turn)]
fn open_file(
    t: &[u8; 256],
    b: &[u8],
    raw: &[u8],
    l: OpenLine,
    names: &mut [u8],
    index: &mut [u32],
    texts: &mut [u8],
    bind: &mut [u32],
    graph: &mut [u32],
    word: &mut [u8],
    c: Counts,
) -> Result<State, Refusal>
    requires { FileAsk t.now b.now raw.now (buffers names.old index.old texts.old bind.old graph.old) word.old c }
    ensures { Leaves (SameRoom (buffers names.old index.old texts.old bind.old graph.old) (buffers names.new index.new texts.new bind.new graph.new) × (Spare word.old word.new)) (LineMeets (buffers names.old index.old texts.old bind.old graph.old) c Open.Nothing (λ rd k. file_opener b.now l.more l.start l.sub raw.now rd) (buffers names.new index.new texts.new bind.new graph.new) result) }
{
    let (k, n) = open_path(t, b, raw, texts, bind, word, l.start, c)?;
    if l.more == 0 {
        return Err(Refusal::BadOpen(l.start));
    }
    let f = enter(l.sub, texts, bind, c, n);
    let o = Opening {
        record: k,
        more: l.more - 1,
    };
    let read = read_text(t, b, o, names, index, texts, bind, graph, word, f.counts)?;
    Ok(State {
        counts: leave(l.sub, texts, bind, read.counts, f.scope),
        open: Open::Nothing,
    })
}

// Lines up to the first that opens a file, and that file.
#[cycle(open_file_read_each_read_text_read_turn)]
fn read_turn(
    t: &[u8; 256],
    b: &[u8],
    m: &[u8],
    found: &[u32],
    lines: TextLines,
    names: &mut [u8],
    index: &mut [u32],
    texts: &mut [u8],
    bind: &mut [u32],
    graph: &mut [u32],
    word: &mut [u8],
    s: State,
) -> LinesTurn
    requires { TurnAsk t.now b.now m.now lines.base found.now lines.from (buffers names.old index.old texts.old bind.old graph.old) word.old s.counts s.open }
    ensures { Leaves (SameRoom (buffers names.old index.old texts.old bind.old graph.old) (buffers names.new index.new texts.new bind.new graph.new) × (Spare word.old word.new)) (LinesMeet (file_opener b.now lines.more) lines.base m.now found.now lines.from (buffers names.old index.old texts.old bind.old graph.old) s.counts s.open (buffers names.new index.new texts.new bind.new graph.new) result) }
{
    let place = FoundPlace {
        base: lines.base,
        from: lines.from,
    };
    match read_stretch(
        t, m, found, place, names, index, texts, bind, graph, word, s,
    ) {
        Stretch::Answered(a) => LinesTurn {
            next: found.len(),
            answer: a,
        },
        Stretch::Opens(k, c, sub, from, to) => {
            let start = at(found, k);
            let end = at(found, k + 1);
            let l = &m[start..end];
            let o = OpenLine {
                start: lines.base + start,
                sub,
                more: lines.more,
            };
            let answer = open_file(
                t,
                b,
                &l[from..to],
                o,
                names,
                index,
                texts,
                bind,
                graph,
                word,
                c,
            );
            LinesTurn {
                next: k + 2,
                answer,
            }
        }
    }
}

// Reads the lines that were found, and the files that they open.
#[cycle(open_file_read_each_read_text_read_turn)]
fn read_each(
    t: &[u8; 256],
    b: &[u8],
    m: &[u8],
    found: &[u32],
    p: TextPlace,
    names: &mut [u8],
    index: &mut [u32],
    texts: &mut [u8],
    bind: &mut [u32],
    graph: &mut [u32],
    word: &mut [u8],
    s: State,
) -> Result<State, Refusal>
    requires { EachAsk t.now b.now m.now p.base found.now (buffers names.old index.old texts.old bind.old graph.old) word.old s.counts s.open }
    ensures { Leaves (SameRoom (buffers names.old index.old texts.old bind.old graph.old) (buffers names.new index.new texts.new bind.new graph.new) × (Spare word.old word.new)) (LineMeets (buffers names.old index.old texts.old bind.old graph.old) s.counts s.open (read_each (file_opener b.now p.more) (lines_placed p.base m.now found.now)) (buffers names.new index.new texts.new bind.new graph.new) result) }
{
    let mut kept = s;
    let mut k = 0;
    while k < found.len() {
        let lines = TextLines {
            base: p.base,
            from: k,
            more: p.more,
        };
        let r = read_turn(
            t, b, m, found, lines, names, index, texts, bind, graph, word, kept,
        );
        kept = r.answer?;
        k = r.next;
    }
    Ok(kept)
}

// The lines of a text, some at a time. "A file's end closes its block."
#[cycle(open_file_read_each_read_text_read_turn)]
pub fn read_text(
    t: &[u8; 256],
    b: &[u8],
    o: Opening,
    names: &mut [u8],
    index: &mut [u32],
    texts: &mut [u8],
    bind: &mut [u32],
    graph: &mut [u32],
    word: &mut [u8],
    c: Counts,
) -> Result<State, Refusal>
    requires { TextReadAsk t.now b.now o.record (buffers names.old index.old texts.old bind.old graph.old) word.old c }
    ensures { Leaves (SameRoom (buffers names.old index.old texts.old bind.old graph.old) (buffers names.new index.new texts.new bind.new graph.new) × (Spare word.old word.new)) (LineMeets (buffers names.old index.old texts.old bind.old graph.old) c Open.Nothing (read_lines (file_opener b.now o.more) (text_lines (bundle_texts b.now) o.record)) (buffers names.new index.new texts.new bind.new graph.new) result) }
{
    let m = record_text(b, o.record);
    let p = TextPlace {
        base: text_base(b, o.record),
        more: o.more,
    };
    let mut found = [0u32; FOUND];
    let mut kept = State {
        counts: c,
        open: Open::Nothing,
    };
    let mut from = 0;
    while from < m.len() {
        let f = lines_from(t, m, from, &mut found);
        kept = read_each(
            t,
            b,
            m,
            &found[..f.filled],
            p,
            names,
            index,
            texts,
            bind,
            graph,
            word,
            kept,
        )?;
        from = f.next;
    }
    close(texts, bind, kept.counts, kept.open)
}
