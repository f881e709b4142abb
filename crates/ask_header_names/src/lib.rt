// The names that a depfile lists, each a mention more: its limits, its number by first mention, and that at the end of
// the second mentions.
#![tactic(auto)]

ghost use Rattle.lists.specs.Lent.{Spare, Leaves};
ghost use Rattle.ask_header_names.specs.Names.{HeaderAsks, AddsHeader, HeaderListAsks, AddsHeaderList};

use apply_files::{add_listed, path_over};
use hold_reading::Counts;
use scan_depfile::{DepfileName, next_prerequisite};

// A name of n bytes, of which `word` has as many as there is room for. None where it is over a limit.
fn add_header(
    word: &[u8],
    n: usize,
    names: &mut [u8],
    index: &mut [u32],
    graph: &mut [u32],
    c: Counts,
) -> Option<Counts>
    requires { HeaderAsks word.now names.old index.old graph.old c }
    ensures { Leaves ((Spare names.old names.new) × (Spare index.old index.new) × (Spare graph.old graph.new)) (AddsHeader word.now n names.old index.old graph.old c names.new index.new graph.new result) }
{
    if path_over(n, c) {
        return None;
    }
    add_listed(&word[..n], names, index, graph, c)
}

// All names that are listed from a place of a depfile on. None where one is over a limit, and where the list is
// malformed: either is the step's 20. The word buffer is working space.
pub fn add_header_list(
    text: &[u8],
    from: usize,
    names: &mut [u8],
    index: &mut [u32],
    graph: &mut [u32],
    word: &mut [u8],
    c: Counts,
) -> Option<Counts>
    requires { HeaderListAsks text.now from names.old index.old graph.old word.old c }
    ensures { Leaves ((Spare names.old names.new) × (Spare index.old index.new) × (Spare graph.old graph.new) × (Spare word.old word.new)) (AddsHeaderList text.now from names.old index.old graph.old c names.new index.new graph.new result) }
{
    let mut i = from;
    let mut d = c;
    loop {
        match next_prerequisite(text, i, word) {
            DepfileName::Name(next, n) => {
                d = add_header(word, n, names, index, graph, d)?;
                i = next;
            }
            DepfileName::End => return Some(d),
            DepfileName::Malformed => return None,
        }
    }
}
