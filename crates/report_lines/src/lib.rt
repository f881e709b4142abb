// The lines of the steps whose texts stand in lent buffers, end to end.
#![tactic(auto)]

ghost use Rattle.printing.specs.Writes.{LeavesOutput};
ghost use Rattle.report_lines.specs.Cut.{cut_texts, lines_of_texts, CutWanted};

use printing::put_step_line;
use slices::bytes::zero_bytes_from;
use slices::words::at;

// The line of each text that ends at one of the places, the list's first `place` steps having gone before.
pub fn text_lines(place: usize, count: usize, bytes: &[u8], ends: &[u32], out: &mut [u8]) -> usize
    requires { CutWanted bytes.now ends.now out.old place count }
    ensures { LeavesOutput (lines_of_texts count place (cut_texts bytes.now 0 ends.now)) out.old result out.new }
{
    let mut from = 0;
    let mut behind = 0;
    // by index: the number in a line counts with it
    for i in 0..ends.len() {
        let end = at(ends, i);
        behind = put_step_line(out, behind, place + i + 1, count, &bytes[from..end]);
        from = end;
    }
    zero_bytes_from(out, behind);
    behind
}
