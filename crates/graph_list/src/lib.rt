// The list of the pending steps.
#![tactic(auto)]

ghost use Rattle.std.specs.Prelude.{◌≡◌, ◌<◌, length};
ghost use Rattle.lists.specs.Lent.{Spare, Leaves};
ghost use Rattle.hold_columns.specs.Columns.{FilesMade, inputs_in, Shown};
ghost use Rattle.graph_list.specs.Listing.{all_clear, LooksAt, LookAsked, PassAsked, ReadyPassed, ListAsked, least_in, StaleListAsked, ListSpaceAsked, StaleListed};

use graph_stale::stale_commands;
use hold_columns::{Columns, inputs, maker};
use slices::words::{at, zero_words_from};
use spec::limits::STEPS;

// Are all makers of these files clear.
fn all_clear(fs: &[u32], made: &[u32], clear: &[u32]) -> bool
    requires { FilesMade (length clear.now) fs.now made.now }
    ensures { result ≡ all_clear made.now clear.now fs.now }
{
    for i in 0..fs.len() {
        let m = maker(fs, i, made);
        if m == 0 {
            continue;
        }
        if at(clear, m - 1) != 1 {
            return false;
        }
    }
    true
}

// A look at step s: where its inputs' makers are all clear, it is ready if it is pending, and clear if not. The lowest
// ready step so far.
// The number of steps stands for none: one compare then finds the lowest, and `next_ready` answers an `Option`.
fn look(g: &Columns, pending: &[u32], clear: &mut [u32], s: usize, best: usize) -> usize
    requires { LookAsked g.now.mentions.now g.now.ends.now g.now.made.now pending.now clear.old s }
    ensures { LooksAt s (all_clear g.now.made.now clear.old (inputs_in g.now.mentions.now g.now.ends.now s)) pending.now clear.old clear.new best result }
{
    if at(clear, s) == 1 {
        return best;
    }
    if !all_clear(inputs(g.mentions, g.ends, s), g.made, clear) {
        return best;
    }
    if at(pending, s) != 1 {
        clear[s] = 1;
        return best;
    }
    if s < best {
        return s;
    }
    best
}

// Looks at the steps of the order one after another. The lowest pending step with no pending one upstream, or none.
fn next_ready(g: &Columns, order: &[u32], pending: &[u32], clear: &mut [u32]) -> Option<usize>
    requires { PassAsked g.now.mentions.now g.now.ends.now g.now.made.now order.now pending.now clear.old }
    ensures { ReadyPassed g.now.mentions.now g.now.ends.now g.now.made.now order.now pending.now clear.new result }
{
    let mut best = pending.len();
    for &s in order {
        best = look(g, pending, clear, s as usize, best);
    }
    if best < pending.len() {
        return Some(best);
    }
    None
}

// Lists the pending steps, at each place the lowest with no pending one upstream, and takes the mark of each off;
// zeros after them. Their number.
fn list_pending(
    g: &Columns,
    order: &[u32],
    pending: &mut [u32],
    clear: &mut [u32],
    list: &mut [u32],
) -> usize
    requires { ListAsked g.now.mentions.now g.now.ends.now g.now.made.now order.now pending.old clear.old list.old }
    ensures { Leaves (Spare pending.old pending.new × Spare clear.old clear.new) (Shown (least_in g.now.mentions.now g.now.ends.now g.now.made.now pending.old) list.old result list.new) }
{
    // a copy that nothing else holds: what is written then leaves its slices where they are, look by look
    let own = *g;
    let mut count: usize = 0;
    while let Some(s) = next_ready(&own, order, pending, clear) {
        list[count] = s as u32;
        count += 1;
        pending[s] = 0;
    }
    zero_words_from(list, count);
    count
}

// Marks the stale command steps of the order, and lists them.
fn list_marked(
    g: &Columns,
    times: &[u64],
    order: &[u32],
    marks: &mut [u32],
    clear: &mut [u32],
    list: &mut [u32],
) -> usize
    requires { ListSpaceAsked g.now.mentions.now g.now.ends.now g.now.phony.now g.now.made.now times.now order.now marks.old clear.old list.old }
    ensures { Leaves (Spare marks.old marks.new × Spare clear.old clear.new) (StaleListed g.now.mentions.now g.now.ends.now g.now.phony.now g.now.made.now times.now order.now list.old result list.new) }
{
    stale_commands(g, times, order, marks);
    list_pending(g, order, marks, clear, list)
}

// The list of the stale command steps of the order, with zeros after it; their number.
pub fn list_stale(g: &Columns, times: &[u64], order: &[u32], list: &mut [u32]) -> usize
    requires { StaleListAsked g.now.mentions.now g.now.ends.now g.now.phony.now g.now.made.now times.now order.now list.old }
    ensures { StaleListed g.now.mentions.now g.now.ends.now g.now.phony.now g.now.made.now times.now order.now list.old result list.new }
{
    let n = g.phony.len();
    let mut marks = [0u32; STEPS];
    let mut clear = [0u32; STEPS];
    list_marked(g, times, order, &mut marks[..n], &mut clear[..n], list)
}
