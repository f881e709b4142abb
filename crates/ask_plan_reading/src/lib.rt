// Two stages of the plan ask, from what has been read of the manifest on: 11, then 12, then what the graph's columns
// give.
#![tactic(auto)]

ghost use Rattle.lists.specs.Lent.{Spare, Leaves};
ghost use Rattle.hold_reading.specs.Buffers.{buffers};
ghost use Rattle.ask_plan_reading.specs.Asked.{ReadAsked, TargetsAsked, NumbersSpaceAsked, PlansTargets, PlansRead};

use ask_plan_columns::plan_columns;
use ask_target_files::number_targets;
use hold_reading::Counts;
use scan_card::sound;
use slices::words::zero_words_from;
use spec::Refusal;
use spec::limits::TARGETS;

// 12 where the target list is bad; else 13. `numbers` is working space, and so are `names` and `index` behind it.
fn number_then_plan(
    t: &[u8; 256],
    headers: &[u8],
    card: &[u8],
    targets: &[u8],
    names: &mut [u8],
    index: &mut [u32],
    texts: &[u8],
    bind: &[u32],
    graph: &[u32],
    c: Counts,
    numbers: &mut [u32],
    list: &mut [u32],
) -> Result<usize, Refusal>
    requires { NumbersSpaceAsked t.now headers.now card.now (buffers names.old index.old texts.now bind.now graph.now) c numbers.old list.old }
    ensures { Leaves (Spare names.old names.new × Spare index.old index.new × Spare numbers.old numbers.new) (PlansTargets headers.now card.now targets.now (buffers names.old index.old texts.now bind.now graph.now) c list.old result list.new) }
{
    match number_targets(targets, names, index, c.files, numbers) {
        Err(place) => {
            zero_words_from(list, 0);
            Err(Refusal::BadTarget(place))
        }
        Ok(n) => plan_columns(
            t,
            headers,
            card,
            names,
            index,
            texts,
            bind,
            graph,
            c,
            &numbers[..n],
            list,
        ),
    }
}

// The same, with the working space.
fn plan_targets(
    t: &[u8; 256],
    headers: &[u8],
    card: &[u8],
    targets: &[u8],
    names: &mut [u8],
    index: &mut [u32],
    texts: &[u8],
    bind: &[u32],
    graph: &[u32],
    c: Counts,
    list: &mut [u32],
) -> Result<usize, Refusal>
    requires { TargetsAsked t.now headers.now card.now (buffers names.old index.old texts.now bind.now graph.now) c list.old }
    ensures { Leaves (Spare names.old names.new × Spare index.old index.new) (PlansTargets headers.now card.now targets.now (buffers names.old index.old texts.now bind.now graph.now) c list.old result list.new) }
{
    let mut numbers = [0u32; TARGETS];
    number_then_plan(
        t,
        headers,
        card,
        targets,
        names,
        index,
        texts,
        bind,
        graph,
        c,
        &mut numbers,
        list,
    )
}

// 11 where the card is not sound; else 12: "then 11 to 15 for a plan". `names` and `index` are working space behind
// it.
pub fn plan_read(
    t: &[u8; 256],
    headers: &[u8],
    card: &[u8],
    targets: &[u8],
    names: &mut [u8],
    index: &mut [u32],
    texts: &[u8],
    bind: &[u32],
    graph: &[u32],
    c: Counts,
    list: &mut [u32],
) -> Result<usize, Refusal>
    requires { ReadAsked t.now headers.now (buffers names.old index.old texts.now bind.now graph.now) c list.old }
    ensures { Leaves (Spare names.old names.new × Spare index.old index.new) (PlansRead headers.now card.now targets.now (buffers names.old index.old texts.now bind.now graph.now) c list.old result list.new) }
{
    if !sound(card) {
        zero_words_from(list, 0);
        return Err(Refusal::BadCard);
    }
    plan_targets(
        t, headers, card, targets, names, index, texts, bind, graph, c, list,
    )
}
