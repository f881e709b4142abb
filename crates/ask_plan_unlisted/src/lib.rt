// A stage of the plan ask where nothing is called `depfile`: the card's times, then 14 on the columns as they were
// read.
#![tactic(auto)]

ghost use Rattle.lists.specs.Lent.{Spare, Leaves};
ghost use Rattle.ask_plan_unlisted.specs.Unlisted.{CardPlanAsked, PlansByCard, UnlistedAsked, PlansUnlisted};

use ask_file_times::fill_times;
use ask_plan_order::plan_ordered;
use hold_columns::Columns;
use hold_parts::{ends_part, made_part, mentions_part, phony_part};
use hold_reading::Counts;
use spec::Refusal;
use spec::limits::FILES;

// 14 and on by these columns and the card's times; `times` is working space.
fn time_then_plan(
    card: &[u8],
    names: &[u8],
    index: &[u32],
    g: &Columns,
    roots: &[u32],
    times: &mut [u64],
    list: &mut [u32],
) -> Result<usize, Refusal>
    requires { CardPlanAsked card.now names.now index.now g.now.mentions.now g.now.ends.now g.now.phony.now g.now.made.now roots.now times.old list.old }
    ensures { Leaves (Spare times.old times.new) (PlansByCard card.now names.now index.now g.now.mentions.now g.now.ends.now g.now.phony.now g.now.made.now roots.now list.old result list.new) }
{
    let n = g.made.len();
    let w = *g;
    fill_times(card, names, index, n, times);
    plan_ordered(&w, g, times, roots, list)
}

// The same by the buffer that the columns lie in, with the working space.
pub fn plan_unlisted(
    card: &[u8],
    names: &[u8],
    index: &[u32],
    graph: &[u32],
    c: Counts,
    roots: &[u32],
    list: &mut [u32],
) -> Result<usize, Refusal>
    requires { UnlistedAsked card.now names.now index.now graph.now c roots.now list.old }
    ensures { PlansUnlisted card.now names.now index.now graph.now c roots.now list.old result list.new }
{
    let mentions = mentions_part(graph, c);
    let ends = ends_part(graph, c);
    let phony = phony_part(graph, c);
    let made = made_part(graph, c);
    let g = Columns {
        mentions,
        ends,
        phony,
        made,
    };
    let n = c.files;
    let mut times = [0u64; FILES];
    time_then_plan(card, names, index, &g, roots, &mut times[..n], list)
}
