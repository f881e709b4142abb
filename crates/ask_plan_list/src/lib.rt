// The last stage of the plan ask: the list, where no check refuses.
#![tactic(auto)]

ghost use Rattle.ask_plan_list.specs.Stages.{OrderAsked, PlansListed};

use graph_list::list_stale;
use hold_columns::Columns;
use spec::Refusal;

// The stale needed command steps, where `order` is an order of the needed steps.
pub fn plan_listed(
    g: &Columns,
    times: &[u64],
    order: &[u32],
    list: &mut [u32],
) -> Result<usize, Refusal>
    requires { OrderAsked g.now.mentions.now g.now.ends.now g.now.phony.now g.now.made.now times.now order.now list.old }
    ensures { PlansListed g.now.mentions.now g.now.ends.now g.now.phony.now g.now.made.now times.now order.now list.old result list.new }
{
    let n = list_stale(g, times, order, list);
    Ok(n)
}
