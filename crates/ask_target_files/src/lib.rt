// The names of a target list as numbers of files, or 12.
#![tactic(auto)]

ghost use Rattle.lists.specs.Lent.{Spare, Leaves};
ghost use Rattle.ask_target_files.specs.Numbered.{NumberingAsked, NumbersTargets};

use hold_names::find_name;
use scan_targets::{NextTarget, bad_form, name_at};

// Puts the number of each target at the front of `out`, in the list's order: how many there are, or the place of the
// first that 12 names.
pub fn number_targets(
    targets: &[u8],
    names: &[u8],
    index: &[u32],
    count: usize,
    out: &mut [u32],
) -> Result<usize, usize>
    requires { NumberingAsked names.now index.now count out.old }
    ensures { Leaves (Spare out.old out.new) (NumbersTargets targets.now names.now index.now count out.new result) }
{
    if bad_form(targets) {
        return Err(0);
    }
    let mut from = 0;
    let mut n = 0;
    // Each name says where the next one starts; n counts the numbers that are put.
    loop {
        match name_at(targets, from) {
            NextTarget::End => return Ok(n),
            NextTarget::Bad => return Err(from),
            NextTarget::Name(end) => {
                let Some(k) = find_name(names, index, count, &targets[from..end]) else {
                    return Err(from);
                };
                out[n] = k as u32;
                n += 1;
                from = end + 1;
            }
        }
    }
}
