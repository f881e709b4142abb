// A line of the manifest cut, with its 4, 5 or 6 in the manifest's own places.
#![tactic(auto)]

ghost use Rattle.std.specs.Prelude.{◌≡◌};
ghost use Rattle.scan_cursor.specs.Spans.{line_of};
ghost use Rattle.cut_refusals.specs.Cuts.{Near, refusal_of, CutAsks, FileLineAt, BlockLineAt};

use cut_forms::{Fault, Statement};
use cut_lines::{cut_indented, cut_statement};
use spec::Refusal;

// 4 and 6 are placed at the line's start, 5 at the `$`.
fn refusal(start: usize, f: Fault) -> Refusal
    requires { Near start f }
    ensures { result ≡ refusal_of start f }
{
    match f {
        Fault::NoForm => Refusal::BadLine(start),
        Fault::BadDollar(p) => Refusal::BadDollar(start + p),
        Fault::NotYet => Refusal::NotYet(start),
    }
}

// A line without indent. "A manifest that ends inside a joined line is refused with 4", after an earlier 5 or 6 of
// that line.
pub fn cut_file_line(
    t: &[u8; 256],
    start: usize,
    l: &[u8],
    ended: bool,
) -> Result<Statement, Refusal>
    requires { CutAsks t.now start l.now }
    ensures { FileLineAt (line_of start l.now ended) result }
{
    match cut_statement(t, l) {
        Ok(s) if ended => Ok(s),
        Ok(_) => Err(Refusal::BadLine(start)),
        Err(f) => Err(refusal(start, f)),
    }
}

// An indented line where a block is open: where its key starts and ends, and the place behind the `=`.
pub fn cut_block_line(
    t: &[u8; 256],
    start: usize,
    l: &[u8],
    ended: bool,
) -> Result<(usize, usize, usize), Refusal>
    requires { CutAsks t.now start l.now }
    ensures { BlockLineAt (line_of start l.now ended) result }
{
    match cut_indented(t, l) {
        Ok(places) if ended => Ok(places),
        Ok(_) => Err(Refusal::BadLine(start)),
        Err(f) => Err(refusal(start, f)),
    }
}
