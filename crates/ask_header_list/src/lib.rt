// The listed inputs of one step: its depfile is looked up by its name, the names that it lists are mentioned, and the
// step is copied into the second columns with them behind its implicit inputs.
#![tactic(auto)]

ghost use Rattle.std.specs.Prelude.{◌≡◌};
ghost use Rattle.lists.specs.Lent.{Spare, Leaves};
ghost use Rattle.ask_header_list.specs.Places.{start_in, places_in, PlacesAsk};
ghost use Rattle.ask_header_list.specs.Copies.{CopyAsks, Copies, ended_in, EndAsks, CloseAsks, Closes};
ghost use Rattle.ask_header_list.specs.Finds.{StartsAt, FindAsks, FindsDepfile, ToldAsks, MentionsListed};
ghost use Rattle.ask_header_list.specs.Adds.{AddHeadersAsks, AddsHeaders};

use arena::put;
use ask_header_names::add_header_list;
use hold_columns::{IMPLICIT_END, INS_END, LAST_END, ORDER_ONLY_END, OUTS_END, end_place};
use hold_names::file_name;
use hold_reading::Counts;
use hold_reading::columns::{ENDS_START, RULE_START, step_end};
use scan_bundle::{find_record, record_text};
use scan_depfile::depfile_start;
use slices::words::at;
use spec::Refusal;

// Where the written mentions of a step start, and where each of its parts ends.
#[derive(Clone, Copy)]
pub struct StepPlaces {
    pub start: usize,
    pub outs: usize,
    pub ins: usize,
    pub implicit: usize,
    pub order: usize,
}

// Where each of its parts ends in the second columns.
#[derive(Clone, Copy)]
pub struct StepEnds {
    pub outs: usize,
    pub ins: usize,
    pub implicit: usize,
    pub order: usize,
}

// A step's depfile: none is named, no record has its name, or the record and where its names start.
#[derive(Clone, Copy)]
pub enum DepfilePlace {
    Unnamed,
    Absent,
    Lists(usize, usize),
    Malformed,
}

fn start_of(graph: &[u32], s: usize) -> usize
    requires { PlacesAsk graph.now s }
    ensures { result ≡ start_in graph.now s }
{
    if s == 0 {
        return 0;
    }
    step_end(graph, s - 1, LAST_END)
}

// Where the parts of a step stand among the written mentions.
fn places_of(graph: &[u32], s: usize) -> StepPlaces
    requires { PlacesAsk graph.now s }
    ensures { result ≡ places_in graph.now s }
{
    let start = start_of(graph, s);
    let outs = step_end(graph, s, OUTS_END);
    let ins = step_end(graph, s, INS_END);
    let implicit = step_end(graph, s, IMPLICIT_END);
    let order = step_end(graph, s, ORDER_ONLY_END);
    StepPlaces {
        start,
        outs,
        ins,
        implicit,
        order,
    }
}

// Copies the written mentions from one place to another to the end of the second ones.
fn copy_mentions(graph: &[u32], from: usize, to: usize, second: &mut [u32], c: Counts) -> Counts
    requires { CopyAsks graph.now from to second.old c }
    ensures { Copies graph.now from to second.old c second.new result }
{
    let mut paths = c.paths;
    for i in from..to {
        put(second, paths, at(graph, i));
        paths += 1;
    }
    Counts { paths, ..c }
}

// Puts down the ends of a step's parts and the number for its depfile.
fn end_step(second: &mut [u32], s: usize, e: StepEnds, n: usize)
    requires { EndAsks second.old s e n }
    ensures { second.new ≡ ended_in second.old s e n }
{
    put(second, ENDS_START + end_place(s, OUTS_END), e.outs);
    put(second, ENDS_START + end_place(s, INS_END), e.ins);
    put(second, ENDS_START + end_place(s, IMPLICIT_END), e.implicit);
    put(second, ENDS_START + end_place(s, ORDER_ONLY_END), e.order);
    put(second, RULE_START + s, n);
}

// Where the names of text k start that are listed for a first output.
fn list_start(text: &[u8], out: &[u8], k: usize) -> DepfilePlace
    ensures { StartsAt text.now out.now k result }
{
    match depfile_start(text, out) {
        Some(from) => DepfilePlace::Lists(k, from),
        None => DepfilePlace::Malformed,
    }
}

// The depfile of that name, for a step whose first output is file `out`.
fn find_depfile(
    headers: &[u8],
    count: usize,
    order: &[u32],
    name: &[u8],
    names: &[u8],
    index: &[u32],
    files: usize,
    out: usize,
) -> DepfilePlace
    requires { FindAsks headers.now count order.now names.now index.now files out }
    ensures { FindsDepfile headers.now name.now names.now index.now files out result }
{
    if name.is_empty() {
        return DepfilePlace::Unnamed;
    }
    match find_record(headers, count, order, name) {
        Some(k) => list_start(
            record_text(headers, k),
            file_name(names, index, files, out),
            k,
        ),
        None => DepfilePlace::Absent,
    }
}

// The names that a step's depfile lists, mentioned: the counts with them, and the number for the depfile. None where
// it is the step's 20. The word buffer is working space.
fn mention_listed(
    headers: &[u8],
    place: DepfilePlace,
    names: &mut [u8],
    index: &mut [u32],
    second: &mut [u32],
    word: &mut [u8],
    c: Counts,
) -> Option<(Counts, usize)>
    requires { ToldAsks headers.now place names.old index.old second.old word.old c }
    ensures { Leaves ((Spare names.old names.new) × (Spare index.old index.new) × (Spare second.old second.new) × (Spare word.old word.new)) (MentionsListed headers.now place names.old index.old second.old c names.new index.new second.new result) }
{
    match place {
        DepfilePlace::Unnamed => Some((c, 0)),
        DepfilePlace::Absent => Some((c, 1)),
        DepfilePlace::Malformed => None,
        DepfilePlace::Lists(k, from) => {
            let text = record_text(headers, k);
            let d = add_header_list(text, from, names, index, second, word, c)?;
            Some((d, 2 * (d.paths - c.paths)))
        }
    }
}

// The step's order-only inputs, its ends and its number, behind what it lists. Its second mentions start at `base`.
fn close_step(
    graph: &[u32],
    p: StepPlaces,
    second: &mut [u32],
    s: usize,
    base: usize,
    c: Counts,
    n: usize,
) -> Counts
    requires { CloseAsks graph.now p second.old s base c n }
    ensures { Closes graph.now p second.old s base c n second.new result }
{
    let d = copy_mentions(graph, p.implicit, p.order, second, c);
    let e = StepEnds {
        outs: base + (p.outs - p.start),
        ins: base + (p.ins - p.start),
        implicit: c.paths,
        order: d.paths,
    };
    end_step(second, s, e, n);
    d
}

// Step s with its listed inputs, by its depfile's name. `graph` has the written columns, `second` those of the steps
// before it with their listed inputs. The word buffer is working space. It stands by itself, which keeps the loops over
// a list's bytes short.
#[inline(never)]
pub fn add_headers(
    headers: &[u8],
    count: usize,
    order: &[u32],
    name: &[u8],
    graph: &[u32],
    names: &mut [u8],
    index: &mut [u32],
    second: &mut [u32],
    word: &mut [u8],
    s: usize,
    c: Counts,
) -> Result<Counts, Refusal>
    requires { AddHeadersAsks headers.now count order.now graph.now names.old index.old second.old word.old s c }
    ensures { Leaves ((Spare names.old names.new) × (Spare index.old index.new) × (Spare second.old second.new) × (Spare word.old word.new)) (AddsHeaders headers.now name.now graph.now names.old index.old second.old s c names.new index.new second.new result) }
{
    let p = places_of(graph, s);
    let out = at(graph, p.start);
    let place = find_depfile(headers, count, order, name, names, index, c.files, out);
    let d = copy_mentions(graph, p.start, p.implicit, second, c);
    let Some((e, n)) = mention_listed(headers, place, names, index, second, word, d) else {
        return Err(Refusal::BadHeaders(s));
    };
    Ok(close_step(graph, p, second, s, c.paths, e, n))
}
