// The choice of the roots, and 13: both go by the written inputs.
#![tactic(auto)]

ghost use Rattle.lists.specs.Lent.{Spare, Leaves};
ghost use Rattle.ask_plan_roots.specs.Roots.{PutAsked, FilesPut, ChoiceAsked, RootsPut, RootsFound};

use graph_roots::tops;
use hold_columns::Columns;

// Puts these files at the front of `out`; their number.
fn put_files(fs: &[u32], out: &mut [u32]) -> usize
    requires { PutAsked fs.now out.old }
    ensures { FilesPut fs.now out.new result }
{
    out[..fs.len()].copy_from_slice(fs);
    fs.len()
}

// The targets; without them, the defaults; without these, every output that is no step's input: at the front of `out`,
// and their number. `marks` is working space.
fn put_roots(
    g: &Columns,
    defaults: &[u32],
    targets: &[u32],
    marks: &mut [u32],
    out: &mut [u32],
) -> usize
    requires { ChoiceAsked g.now.mentions.now g.now.ends.now g.now.phony.now g.now.made.now defaults.now targets.now marks.old out.old }
    ensures { Leaves (Spare marks.old marks.new) (RootsPut g.now.mentions.now g.now.ends.now g.now.phony.now g.now.made.now defaults.now targets.now out.new result) }
{
    if !targets.is_empty() {
        return put_files(targets, out);
    }
    if !defaults.is_empty() {
        return put_files(defaults, out);
    }
    tops(g, marks, out)
}

// The roots, at the front of `out`, and how many; None where there are steps and no root, which is 13. `marks` is
// working space.
pub fn find_roots(
    g: &Columns,
    defaults: &[u32],
    targets: &[u32],
    marks: &mut [u32],
    out: &mut [u32],
) -> Option<usize>
    requires { ChoiceAsked g.now.mentions.now g.now.ends.now g.now.phony.now g.now.made.now defaults.now targets.now marks.old out.old }
    ensures { Leaves (Spare marks.old marks.new) (RootsFound g.now.mentions.now g.now.ends.now g.now.phony.now g.now.made.now defaults.now targets.now out.new result) }
{
    let k = put_roots(g, defaults, targets, marks, out);
    if 0 < k {
        return Some(k);
    }
    if g.phony.len() == 0 {
        return Some(k);
    }
    None
}
