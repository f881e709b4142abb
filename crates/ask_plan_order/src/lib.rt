// A stage of the plan ask: 14, then 15.
#![tactic(auto)]

ghost use Rattle.lists.specs.Lent.{Spare, Leaves};
ghost use Rattle.ask_plan_order.specs.Order.{RootsAsked, OrderSpaceAsked, PlansOrdered};

use ask_plan_sources::plan_sources;
use graph_order::order_needed;
use hold_columns::Columns;
use spec::Refusal;
use spec::limits::STEPS;

// 14 where the needed steps have no order, with a circle in the list; else 15. `order` is working space.
fn sort_then_plan(
    w: &Columns,
    g: &Columns,
    times: &[u64],
    roots: &[u32],
    order: &mut [u32],
    list: &mut [u32],
) -> Result<usize, Refusal>
    requires { OrderSpaceAsked w.now.mentions.now w.now.ends.now g.now.mentions.now g.now.ends.now g.now.phony.now g.now.made.now times.now roots.now order.old list.old }
    ensures { Leaves (Spare order.old order.new) (PlansOrdered w.now.mentions.now w.now.ends.now g.now.mentions.now g.now.ends.now g.now.phony.now g.now.made.now times.now roots.now list.old result list.new) }
{
    match order_needed(g, roots, order, list) {
        Ok(k) => plan_sources(w, g, times, roots, &order[..k], list),
        Err(k) => Err(Refusal::Circle(k)),
    }
}

// The same, with the working space.
pub fn plan_ordered(
    w: &Columns,
    g: &Columns,
    times: &[u64],
    roots: &[u32],
    list: &mut [u32],
) -> Result<usize, Refusal>
    requires { RootsAsked w.now.mentions.now w.now.ends.now g.now.mentions.now g.now.ends.now g.now.phony.now g.now.made.now times.now roots.now list.old }
    ensures { PlansOrdered w.now.mentions.now w.now.ends.now g.now.mentions.now g.now.ends.now g.now.phony.now g.now.made.now times.now roots.now list.old result list.new }
{
    let n = g.phony.len();
    let mut order = [0u32; STEPS];
    sort_then_plan(w, g, times, roots, &mut order[..n], list)
}
