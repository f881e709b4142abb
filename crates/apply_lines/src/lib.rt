// A line by its kind: a comment, a blank line, an indented line or a statement.
#![tactic(auto)]

ghost use Rattle.lists.specs.Lent.{Spare, Leaves};
ghost use Rattle.spec.specs.Manifest.{read_line};
ghost use Rattle.scan_cursor.specs.Spans.{line_of};
ghost use Rattle.apply_statements.specs.Asks.{LineAsks, TurnMeets};
ghost use Rattle.hold_reading.specs.Buffers.{SameRoom, buffers};

use apply_indented::read_indented;
use apply_rules::close;
use apply_statements::read_file_line;
use hold_reading::{Line, LineTurn, State, turned};
use scan_lines::{LineKind, line_kind};

// A line. A comment closes no block; "An empty line or one of spaces only closes a block."
pub fn read_line(
    t: &[u8; 256],
    line: Line,
    l: &[u8],
    names: &mut [u8],
    index: &mut [u32],
    texts: &mut [u8],
    bind: &mut [u32],
    graph: &mut [u32],
    word: &mut [u8],
    s: State,
) -> LineTurn
    requires { LineAsks t.now line.start l.now (buffers names.old index.old texts.old bind.old graph.old) word.old s.counts s.open }
    ensures { Leaves (SameRoom (buffers names.old index.old texts.old bind.old graph.old) (buffers names.new index.new texts.new bind.new graph.new) × (Spare word.old word.new)) (TurnMeets (line_of line.start l.now line.ended) (buffers names.old index.old texts.old bind.old graph.old) s.counts s.open (read_line (line_of line.start l.now line.ended)) (buffers names.new index.new texts.new bind.new graph.new) result) }
{
    let c = s.counts;
    let block = s.open;
    match line_kind(t, l) {
        LineKind::Comment => LineTurn::Answered(Ok(s)),
        LineKind::Blank => turned(close(texts, bind, c, block)),
        LineKind::Indented => turned(read_indented(
            t, line.start, l, line.ended, texts, bind, word, c, block,
        )),
        LineKind::Statement => read_file_line(
            t, line, l, names, index, texts, bind, graph, word, s,
        ),
    }
}
