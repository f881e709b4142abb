// The listed inputs of all steps: names and second columns as they are with them, or the first refusal (document 02,
// [4]).
#![tactic(auto)]

ghost use Rattle.std.specs.Prelude.{◌+◌, ◌≤◌, length};
ghost use Rattle.lists.specs.Lent.{Spare, Leaves};
ghost use Rattle.hold_reading.specs.Buffers.{buffers};
ghost use Rattle.ask_header_graph.specs.Graph.{HeadStepsAsked, HeadsSteps};
ghost use Rattle.ask_header_graph.specs.Split.{SplitAsked, SplitsLists};
ghost use Rattle.ask_header_graph.specs.Begins.{Fills, BeginAsked, Begins};
ghost use Rattle.ask_header_graph.specs.Turns.{TurnAsked, Turns, WalkAsked, HeadsAll};

use arena::put;
use ask_depfile_names::depfile_name;
use ask_header_list::add_headers;
use hold_headers::listed_number;
use hold_reading::Counts;
use hold_reading::columns::{DEFAULTS_START, MADE_START, PHONY_START};
use spec::Refusal;

// What the depfile of each step tells, in two columns: is it missing, and how many files it lists.
pub fn split_lists(second: &[u32], steps: usize, missing: &mut [u32], listed: &mut [u32])
    requires { SplitAsked second.now steps missing.old listed.old }
    ensures { SplitsLists second.now steps missing.new listed.new }
{
    for s in 0..steps {
        let n = listed_number(second, s);
        put(missing, s, n % 2);
        put(listed, s, n / 2);
    }
}

// Fills a column that is empty, from the place where it starts.
fn fill_column(second: &mut [u32], at: usize, src: &[u32])
    requires { at + length src.now ≤ length second.old }
    ensures { Fills second.old at src.now second.new }
{
    second[at..at + src.len()].copy_from_slice(src);
}

// The second columns before the first step: what the written ones have beside the steps' files.
fn begin_columns(graph: &[u32], c: Counts, second: &mut [u32])
    requires { BeginAsked graph.now c second.old }
    ensures { Begins graph.now c second.new }
{
    let phony = &graph[PHONY_START..PHONY_START + c.steps];
    let made = &graph[MADE_START..MADE_START + c.files];
    let defaults = &graph[DEFAULTS_START..DEFAULTS_START + c.defaults];
    fill_column(second, PHONY_START, phony);
    fill_column(second, MADE_START, made);
    fill_column(second, DEFAULTS_START, defaults);
}

// Step s with its listed inputs, by the name of its depfile. The steps before it are headed.
fn head_step(
    t: &[u8; 256],
    headers: &[u8],
    count: usize,
    order: &[u32],
    texts: &[u8],
    bind: &[u32],
    graph: &[u32],
    c: Counts,
    names: &mut [u8],
    index: &mut [u32],
    second: &mut [u32],
    name: &mut [u8],
    word: &mut [u8],
    s: usize,
    d: Counts,
) -> Result<Counts, Refusal>
    requires { TurnAsked t.now headers.now count order.now (buffers names.old index.old texts.now bind.now graph.now) c second.old name.old word.old s d }
    ensures { Leaves ((Spare names.old names.new) × (Spare index.old index.new) × (Spare second.old second.new) × (Spare name.old name.new) × (Spare word.old word.new)) (Turns headers.now (buffers names.old index.old texts.now bind.now graph.now) c second.old s d names.new index.new second.new result) }
{
    let named = depfile_name(t, names, index, texts, bind, graph, c, d.files, s, name)?;
    // no depfile is one with an empty name
    let n = named.unwrap_or(0);
    add_headers(
        headers,
        count,
        order,
        &name[..n],
        graph,
        names,
        index,
        second,
        word,
        s,
        d,
    )
}

// All steps, where the second columns have none yet.
fn walk_steps(
    t: &[u8; 256],
    headers: &[u8],
    count: usize,
    order: &[u32],
    texts: &[u8],
    bind: &[u32],
    graph: &[u32],
    c: Counts,
    names: &mut [u8],
    index: &mut [u32],
    second: &mut [u32],
    name: &mut [u8],
    word: &mut [u8],
) -> Result<Counts, Refusal>
    requires { WalkAsked t.now headers.now count order.now (buffers names.old index.old texts.now bind.now graph.now) c second.old name.old word.old }
    ensures { Leaves ((Spare names.old names.new) × (Spare index.old index.new) × (Spare second.old second.new) × (Spare name.old name.new) × (Spare word.old word.new)) (HeadsAll headers.now (buffers names.old index.old texts.now bind.now graph.now) c second.old names.new index.new second.new result) }
{
    let mut d = Counts { paths: 0, ..c };
    for s in 0..c.steps {
        // no `?`: with a `match` the must-fail edit `refusal_passed_over` changes the value returned, and not the form
        match head_step(
            t, headers, count, order, texts, bind, graph, c, names, index, second, name, word, s, d,
        ) {
            Ok(e) => {
                d = e;
            }
            Err(r) => {
                return Err(r);
            }
        }
    }
    Ok(d)
}

// All steps with their listed inputs. `graph` has the written columns; `names` and `index` get the listed files,
// `second` the columns with them. What they hold after a refusal is left open; `name` and `word` are working space.
pub fn head_steps(
    t: &[u8; 256],
    headers: &[u8],
    count: usize,
    order: &[u32],
    texts: &[u8],
    bind: &[u32],
    graph: &[u32],
    c: Counts,
    names: &mut [u8],
    index: &mut [u32],
    second: &mut [u32],
    name: &mut [u8],
    word: &mut [u8],
) -> Result<Counts, Refusal>
    requires { HeadStepsAsked t.now headers.now count order.now (buffers names.old index.old texts.now bind.now graph.now) c second.old name.old word.old }
    ensures { Leaves ((Spare names.old names.new) × (Spare index.old index.new) × (Spare second.old second.new) × (Spare name.old name.new) × (Spare word.old word.new)) (HeadsSteps headers.now (buffers names.old index.old texts.now bind.now graph.now) c names.new index.new second.new result) }
{
    begin_columns(graph, c, second);
    walk_steps(
        t, headers, count, order, texts, bind, graph, c, names, index, second, name, word,
    )
}
