// A stage of the plan ask: the header lists (16, 17 and 20 at a step), then 14 on the graph with the listed inputs.
#![tactic(auto)]

ghost use Rattle.lists.specs.Lent.{Spare, Leaves};
ghost use Rattle.scan_bundle.specs.Bundles.{BundleIndexed};
ghost use Rattle.hold_reading.specs.Buffers.{buffers};
ghost use Rattle.ask_plan_headers.specs.Headers.{ListsAsked, HeadersPlanAsked, PlansHeaders};

use ask_depfile_bound::depfile_bound;
use ask_header_graph::head_steps;
use ask_plan_second::plan_second;
use ask_plan_unlisted::plan_unlisted;
use hold_reading::Counts;
use hold_reading::columns::COLUMNS_END;
use scan_bundle::index as index_bundle;
use slices::words::zero_words_from;
use spec::Refusal;
use spec::limits::{HEADERS, PATH, TEXT};

// How many lists there are. `order` begins with their numbers, sorted by name.
fn index_lists(headers: &[u8], order: &mut [u32]) -> usize
    requires { ListsAsked headers.now order.old }
    ensures { Leaves (Spare order.old order.new) (BundleIndexed headers.now result order.new) }
{
    index_bundle(headers, 0, HEADERS, order).unwrap_or(0)
}

// The plan where something is called `depfile`.
fn plan_depfiles(
    t: &[u8; 256],
    headers: &[u8],
    card: &[u8],
    names: &mut [u8],
    index: &mut [u32],
    texts: &[u8],
    bind: &[u32],
    graph: &[u32],
    c: Counts,
    roots: &[u32],
    list: &mut [u32],
) -> Result<usize, Refusal>
    requires { HeadersPlanAsked t.now headers.now card.now (buffers names.old index.old texts.now bind.now graph.now) c roots.now list.old }
    ensures { Leaves (Spare names.old names.new × Spare index.old index.new) (PlansHeaders headers.now card.now (buffers names.old index.old texts.now bind.now graph.now) c roots.now list.old result list.new) }
{
    let mut order = [0u32; HEADERS];
    let mut second = [0u32; COLUMNS_END];
    let mut name = [0u8; TEXT];
    let mut word = [0u8; PATH];
    let n = index_lists(headers, &mut order);
    match head_steps(
        t,
        headers,
        n,
        &order,
        texts,
        bind,
        graph,
        c,
        names,
        index,
        &mut second,
        &mut name,
        &mut word,
    ) {
        Ok(d) => plan_second(card, names, index, graph, c, &second, d, roots, list),
        Err(r) => {
            zero_words_from(list, 0);
            Err(r)
        }
    }
}

// The plan from the header lists on. `names` and `index` get the listed files; what they hold afterwards is left open.
// Where nothing is called `depfile` there is nothing to look for, and no space for it is made.
pub fn plan_headers(
    t: &[u8; 256],
    headers: &[u8],
    card: &[u8],
    names: &mut [u8],
    index: &mut [u32],
    texts: &[u8],
    bind: &[u32],
    graph: &[u32],
    c: Counts,
    roots: &[u32],
    list: &mut [u32],
) -> Result<usize, Refusal>
    requires { HeadersPlanAsked t.now headers.now card.now (buffers names.old index.old texts.now bind.now graph.now) c roots.now list.old }
    ensures { Leaves (Spare names.old names.new × Spare index.old index.new) (PlansHeaders headers.now card.now (buffers names.old index.old texts.now bind.now graph.now) c roots.now list.old result list.new) }
{
    if depfile_bound(texts, bind, c.entries) {
        return plan_depfiles(
            t, headers, card, names, index, texts, bind, graph, c, roots, list,
        );
    }
    plan_unlisted(card, names, index, graph, c, roots, list)
}
