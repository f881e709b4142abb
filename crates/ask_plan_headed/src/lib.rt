// A stage of the plan ask, behind the header lists: the times by which steps are judged, then 14.
#![tactic(auto)]

ghost use Rattle.lists.specs.Lent.{Spare, Leaves};
ghost use Rattle.ask_plan_headed.specs.Headed.{HeadedPlanAsked, HeadedSpaceAsked, PlansHeaded};

use ask_headed_times::headed_times;
use ask_plan_order::plan_ordered;
use hold_columns::Columns;
use spec::Refusal;
use spec::limits::FILES;

// 14 and on by these columns; `times` is working space.
fn time_then_plan(
    card: &[u8],
    names: &[u8],
    index: &[u32],
    w: &Columns,
    g: &Columns,
    missing: &[u32],
    listed: &[u32],
    roots: &[u32],
    times: &mut [u64],
    list: &mut [u32],
) -> Result<usize, Refusal>
    requires { HeadedSpaceAsked card.now names.now index.now w.now.mentions.now w.now.ends.now g.now.mentions.now g.now.ends.now g.now.phony.now g.now.made.now missing.now listed.now roots.now times.old list.old }
    ensures { Leaves (Spare times.old times.new) (PlansHeaded card.now names.now index.now w.now.mentions.now w.now.ends.now g.now.mentions.now g.now.ends.now g.now.phony.now g.now.made.now missing.now listed.now roots.now list.old result list.new) }
{
    headed_times(card, names, index, g, missing, listed, times);
    plan_ordered(w, g, times, roots, list)
}

// The same, with the working space.
pub fn plan_headed(
    card: &[u8],
    names: &[u8],
    index: &[u32],
    w: &Columns,
    g: &Columns,
    missing: &[u32],
    listed: &[u32],
    roots: &[u32],
    list: &mut [u32],
) -> Result<usize, Refusal>
    requires { HeadedPlanAsked card.now names.now index.now w.now.mentions.now w.now.ends.now g.now.mentions.now g.now.ends.now g.now.phony.now g.now.made.now missing.now listed.now roots.now list.old }
    ensures { PlansHeaded card.now names.now index.now w.now.mentions.now w.now.ends.now g.now.mentions.now g.now.ends.now g.now.phony.now g.now.made.now missing.now listed.now roots.now list.old result list.new }
{
    let n = g.made.len();
    let mut times = [0u64; FILES];
    time_then_plan(
        card,
        names,
        index,
        w,
        g,
        missing,
        listed,
        roots,
        &mut times[..n],
        list,
    )
}
