// A stage of the plan ask: the graph's columns as the reader leaves them are cut once for the choice of the roots; 13,
// then the header lists.
#![tactic(auto)]

ghost use Rattle.lists.specs.Lent.{Spare, Leaves};
ghost use Rattle.hold_reading.specs.Buffers.{buffers};
ghost use Rattle.ask_plan_columns.specs.Columns.{ChoiceAskedIn, ChoiceSpace, FoundIn, ColumnsAsked, RootsSpaceAsked, PlansColumns};

use ask_plan_headers::plan_headers;
use ask_plan_roots::find_roots;
use hold_columns::{Columns, STEP_ENDS};
use hold_reading::Counts;
use hold_reading::columns::{DEFAULTS_START, ENDS_START, MADE_START, PHONY_START};
use slices::words::zero_words_from;
use spec::Refusal;
use spec::limits::{FILES, MENTIONS};

// The roots by the columns, where the targets' numbers are known; `marks` is working space.
fn find_in(
    graph: &[u32],
    c: Counts,
    targets: &[u32],
    marks: &mut [u32],
    out: &mut [u32],
) -> Option<usize>
    requires { ChoiceSpace graph.now c targets.now marks.old out.old }
    ensures { Leaves (Spare marks.old marks.new) (FoundIn graph.now c targets.now out.new result) }
{
    let steps = c.steps;
    let mentions = &graph[..c.paths];
    let ends = &graph[ENDS_START..ENDS_START + STEP_ENDS * steps];
    let phony = &graph[PHONY_START..PHONY_START + steps];
    let made = &graph[MADE_START..MADE_START + c.files];
    let defaults = &graph[DEFAULTS_START..DEFAULTS_START + c.defaults];
    let g = Columns {
        mentions,
        ends,
        phony,
        made,
    };
    find_roots(&g, defaults, targets, marks, out)
}

// The same, with the marks.
fn choose_roots(graph: &[u32], c: Counts, targets: &[u32], out: &mut [u32]) -> Option<usize>
    requires { ChoiceAskedIn graph.now c targets.now out.old }
    ensures { FoundIn graph.now c targets.now out.new result }
{
    let files = c.files;
    let mut marks = [0u32; FILES];
    find_in(graph, c, targets, &mut marks[..files], out)
}

// 13 where there is no root; else the header lists, from the roots. `out` is working space.
fn choose_then_plan(
    t: &[u8; 256],
    headers: &[u8],
    card: &[u8],
    names: &mut [u8],
    index: &mut [u32],
    texts: &[u8],
    bind: &[u32],
    graph: &[u32],
    c: Counts,
    targets: &[u32],
    out: &mut [u32],
    list: &mut [u32],
) -> Result<usize, Refusal>
    requires { RootsSpaceAsked t.now headers.now card.now (buffers names.old index.old texts.now bind.now graph.now) c targets.now out.old list.old }
    ensures { Leaves (Spare names.old names.new × Spare index.old index.new × Spare out.old out.new) (PlansColumns headers.now card.now (buffers names.old index.old texts.now bind.now graph.now) c targets.now list.old result list.new) }
{
    let Some(k) = choose_roots(graph, c, targets, out) else {
        zero_words_from(list, 0);
        return Err(Refusal::NoRoot);
    };
    plan_headers(
        t,
        headers,
        card,
        names,
        index,
        texts,
        bind,
        graph,
        c,
        &out[..k],
        list,
    )
}

// The plan of the columns, where the targets' numbers are known. `names` and `index` are working space behind it.
pub fn plan_columns(
    t: &[u8; 256],
    headers: &[u8],
    card: &[u8],
    names: &mut [u8],
    index: &mut [u32],
    texts: &[u8],
    bind: &[u32],
    graph: &[u32],
    c: Counts,
    targets: &[u32],
    list: &mut [u32],
) -> Result<usize, Refusal>
    requires { ColumnsAsked t.now headers.now card.now (buffers names.old index.old texts.now bind.now graph.now) c targets.now list.old }
    ensures { Leaves (Spare names.old names.new × Spare index.old index.new) (PlansColumns headers.now card.now (buffers names.old index.old texts.now bind.now graph.now) c targets.now list.old result list.new) }
{
    let mut out = [0u32; MENTIONS];
    choose_then_plan(
        t, headers, card, names, index, texts, bind, graph, c, targets, &mut out, list,
    )
}
