// A stage of the plan ask, behind the header lists: what the depfiles tell in two columns, then 14 on the columns with
// the listed inputs.
#![tactic(auto)]

ghost use Rattle.lists.specs.Lent.{Spare, Leaves};
ghost use Rattle.ask_plan_second.specs.Second.{SecondAsked, SecondSpaceAsked, PlansSecond};

use ask_header_graph::split_lists;
use ask_plan_headed::plan_headed;
use hold_columns::Columns;
use hold_parts::{ends_part, made_part, mentions_part, phony_part};
use hold_reading::Counts;
use spec::Refusal;
use spec::limits::STEPS;

// 14 and on by the second columns, of the counts d; `missing` and `listed` are working space.
fn split_then_plan(
    card: &[u8],
    names: &[u8],
    index: &[u32],
    graph: &[u32],
    c: Counts,
    second: &[u32],
    d: Counts,
    roots: &[u32],
    missing: &mut [u32],
    listed: &mut [u32],
    list: &mut [u32],
) -> Result<usize, Refusal>
    requires { SecondSpaceAsked card.now names.now index.now graph.now c second.now d roots.now missing.old listed.old list.old }
    ensures { Leaves (Spare missing.old missing.new × Spare listed.old listed.new) (PlansSecond card.now names.now index.now graph.now c second.now d roots.now list.old result list.new) }
{
    split_lists(second, d.steps, missing, listed);
    let wmentions = mentions_part(graph, c);
    let wends = ends_part(graph, c);
    let mentions = mentions_part(second, d);
    let ends = ends_part(second, d);
    let phony = phony_part(second, d);
    let made = made_part(second, d);
    let g = Columns {
        mentions,
        ends,
        phony,
        made,
    };
    // The steps and makers are the same as in the columns that were read.
    let w = Columns {
        mentions: wmentions,
        ends: wends,
        ..g
    };
    plan_headed(card, names, index, &w, &g, missing, listed, roots, list)
}

// The same, with the working space.
pub fn plan_second(
    card: &[u8],
    names: &[u8],
    index: &[u32],
    graph: &[u32],
    c: Counts,
    second: &[u32],
    d: Counts,
    roots: &[u32],
    list: &mut [u32],
) -> Result<usize, Refusal>
    requires { SecondAsked card.now names.now index.now graph.now c second.now d roots.now list.old }
    ensures { PlansSecond card.now names.now index.now graph.now c second.now d roots.now list.old result list.new }
{
    let n = d.steps;
    let mut missing = [0u32; STEPS];
    let mut listed = [0u32; STEPS];
    split_then_plan(
        card,
        names,
        index,
        graph,
        c,
        second,
        d,
        roots,
        &mut missing[..n],
        &mut listed[..n],
        list,
    )
}
