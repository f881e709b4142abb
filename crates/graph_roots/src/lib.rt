// Roots where neither targets nor defaults are named: the outputs that are no step's input.
#![tactic(auto)]

ghost use Rattle.std.specs.Prelude.{ℕ, ◌<◌, length, get_or};
ghost use Rattle.lists.specs.Lent.{Spare, Leaves};
ghost use Rattle.graph_roots.specs.Tops.{MarkedToo, MarkAsked, InputsMarked, AppendAsked, Appended, TopsAsked, TopsFound};

use hold_columns::{Columns, inputs, outs};
use slices::words::at;

// Marks these files.
fn mark(fs: &[u32], marks: &mut [u32])
    requires { (i : ℕ) → i < length fs.now → get_or fs.now i 0 < length marks.old }
    ensures { MarkedToo fs.now marks.old marks.new }
{
    for &f in fs {
        marks[f as usize] = 1;
    }
}

// Marks the inputs of all steps.
fn mark_inputs(g: &Columns, marks: &mut [u32])
    requires { MarkAsked g.now.mentions.now g.now.ends.now g.now.phony.now g.now.made.now marks.old }
    ensures { InputsMarked g.now.mentions.now g.now.ends.now (length g.now.phony.now) (length g.now.made.now) marks.new }
{
    for s in 0..g.phony.len() {
        mark(inputs(g.mentions, g.ends, s), marks);
    }
}

// Puts those of the files that are not marked behind the first k numbers of `out`; how many numbers there are then.
fn append_unmarked(fs: &[u32], marks: &[u32], out: &mut [u32], k: usize) -> usize
    requires { AppendAsked fs.now marks.now out.old k }
    ensures { Appended fs.now marks.now out.old k out.new result }
{
    let mut n = k;
    for &f in fs {
        if at(marks, f as usize) == 1 {
            continue;
        }
        out[n] = f;
        n += 1;
    }
    n
}

// Puts the outputs that are no step's input at the front of `out`; their number.
pub fn tops(g: &Columns, marks: &mut [u32], out: &mut [u32]) -> usize
    requires { TopsAsked g.now.mentions.now g.now.ends.now g.now.phony.now g.now.made.now marks.old out.old }
    ensures { Leaves (Spare marks.old marks.new) (TopsFound g.now.mentions.now g.now.ends.now g.now.phony.now g.now.made.now out.new result) }
{
    mark_inputs(g, marks);
    let mut k: usize = 0;
    for s in 0..g.phony.len() {
        k = append_unmarked(outs(g.mentions, g.ends, s), marks, out, k);
    }
    k
}
