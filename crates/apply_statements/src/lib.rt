// Lines without indent: they close the open block before their own fault, and then are cut and applied.
#![tactic(auto)]

ghost use Rattle.lists.specs.Lent.{Spare, Leaves};
ghost use Rattle.spec.specs.Manifest.{close, and_then, read_statement};
ghost use Rattle.scan_cursor.specs.Spans.{line_of};
ghost use Rattle.apply_statements.specs.Asks.{LineAsks, TurnMeets};
ghost use Rattle.hold_reading.specs.Buffers.{SameRoom, buffers};

use apply_builds::add_step;
use apply_defaults::{DefaultStatement, add_defaults};
use apply_rules::{close, start_rule};
use apply_steps::BuildStatement;
use apply_variables::add_var;
use cut_forms::Statement;
use cut_refusals::cut_file_line;
use hold_reading::{Counts, Line, LineTurn, Open, State, turned};
use scan_raw::texts::raw_value;

// A line where no block is open. The word buffer is working space, and after a refusal all are.
pub fn read_statement(
    t: &[u8; 256],
    line: Line,
    l: &[u8],
    names: &mut [u8],
    index: &mut [u32],
    texts: &mut [u8],
    bind: &mut [u32],
    graph: &mut [u32],
    word: &mut [u8],
    c: Counts,
) -> LineTurn
    requires { LineAsks t.now line.start l.now (buffers names.old index.old texts.old bind.old graph.old) word.old c Open.Nothing }
    ensures { Leaves (SameRoom (buffers names.old index.old texts.old bind.old graph.old) (buffers names.new index.new texts.new bind.new graph.new) × (Spare word.old word.new)) (TurnMeets (line_of line.start l.now line.ended) (buffers names.old index.old texts.old bind.old graph.old) c Open.Nothing (read_statement (line_of line.start l.now line.ended)) (buffers names.new index.new texts.new bind.new graph.new) result) }
{
    let start = line.start;
    match cut_file_line(t, start, l, line.ended) {
        Ok(Statement::Rule(from, to)) => turned(start_rule(start, &l[from..to], texts, bind, c)),
        Ok(Statement::Build(p)) => {
            let s = BuildStatement { start, places: p };
            turned(add_step(t, l, s, names, index, texts, bind, graph, word, c))
        }
        Ok(Statement::Default(at)) => {
            let s = DefaultStatement { start, paths: at };
            turned(add_defaults(t, l, s, names, index, texts, bind, graph, word, c))
        }
        Ok(Statement::Open(sub, from, to)) => LineTurn::Opens(c, sub, from, to),
        Ok(Statement::Binding(from, to, at)) => {
            let raw = raw_value(l, at);
            turned(add_var(t, start, &l[from..to], raw, texts, bind, word, c))
        }
        Err(r) => LineTurn::Answered(Err(r)),
    }
}

// A line without indent that is no comment.
pub fn read_file_line(
    t: &[u8; 256],
    line: Line,
    l: &[u8],
    names: &mut [u8],
    index: &mut [u32],
    texts: &mut [u8],
    bind: &mut [u32],
    graph: &mut [u32],
    word: &mut [u8],
    s: State,
) -> LineTurn
    requires { LineAsks t.now line.start l.now (buffers names.old index.old texts.old bind.old graph.old) word.old s.counts s.open }
    ensures { Leaves (SameRoom (buffers names.old index.old texts.old bind.old graph.old) (buffers names.new index.new texts.new bind.new graph.new) × (Spare word.old word.new)) (TurnMeets (line_of line.start l.now line.ended) (buffers names.old index.old texts.old bind.old graph.old) s.counts s.open (λ rd b. and_then (close rd b) (read_statement (line_of line.start l.now line.ended))) (buffers names.new index.new texts.new bind.new graph.new) result) }
{
    let c = s.counts;
    let block = s.open;
    // no `?`: what a line does is no `Result`
    match close(texts, bind, c, block) {
        Ok(closed) => read_statement(
            t,
            line,
            l,
            names,
            index,
            texts,
            bind,
            graph,
            word,
            closed.counts,
        ),
        Err(unclosed) => LineTurn::Answered(Err(unclosed)),
    }
}
