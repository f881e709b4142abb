// A stage of the plan ask: 15, then the list.
#![tactic(auto)]

ghost use Rattle.ask_plan_sources.specs.Sources.{SourcesAsked, PlansSources};

use ask_plan_list::plan_listed;
use graph_sources::missing_source;
use hold_columns::Columns;
use slices::words::zero_words_from;
use spec::Refusal;

// 15 where a needed source is missing, where `order` is an order of the needed steps; else the list. The inputs that
// count as sources are those of the written columns: a listed file by itself is none.
pub fn plan_sources(
    w: &Columns,
    g: &Columns,
    times: &[u64],
    roots: &[u32],
    order: &[u32],
    list: &mut [u32],
) -> Result<usize, Refusal>
    requires { SourcesAsked w.now.mentions.now w.now.ends.now g.now.mentions.now g.now.ends.now g.now.phony.now g.now.made.now times.now roots.now order.now list.old }
    ensures { PlansSources w.now.mentions.now w.now.ends.now g.now.mentions.now g.now.ends.now g.now.phony.now g.now.made.now times.now roots.now order.now list.old result list.new }
{
    if let Some(f) = missing_source(w.mentions, w.ends, g.made, times, roots, order) {
        zero_words_from(list, 0);
        return Err(Refusal::MissingSource(f));
    }
    plan_listed(g, times, order, list)
}
