// One path of a default line: its limits, and the output's number behind the defaults.
#![tactic(auto)]

ghost use Rattle.lists.specs.Lent.{Spare, Leaves};
ghost use Rattle.apply_path_checks.specs.Checks.{RawAsks};
ghost use Rattle.apply_default_path.specs.Defaults.{PutAsks, PutsDefault, NamesDefault};
ghost use Rattle.hold_reading.specs.Buffers.{buffers};

use apply_files::path_over;
use arena::put;
use expand_dollars::expand;
use hold_names::find_name;
use hold_reading::Counts;
use hold_reading::columns::DEFAULTS_START;

// Writes the number of an output's path behind the defaults.
fn put_default(names: &[u8], index: &[u32], graph: &mut [u32], c: Counts, path: &[u8]) -> Counts
    requires { PutAsks names.now index.now graph.old c path.now }
    ensures { PutsDefault names.now index.now graph.old c path.now graph.new result }
{
    let Some(k) = find_name(names, index, c.files, path) else {
        return c;
    };
    put(graph, DEFAULTS_START + c.defaults, k);
    Counts {
        defaults: c.defaults + 1,
        mentions: c.mentions + 1,
        written: c.written + path.len(),
        ..c
    }
}

// One path of a default line, which is an output's: the counts with it, or `None` where it is over a limit. The word
// buffer is working space.
pub fn add_default(
    t: &[u8; 256],
    raw: &[u8],
    names: &[u8],
    index: &[u32],
    texts: &[u8],
    bind: &[u32],
    graph: &mut [u32],
    word: &mut [u8],
    c: Counts,
) -> Option<Counts>
    requires { RawAsks t.now raw.now (buffers names.now index.now texts.now bind.now graph.old) word.old c }
    ensures { Leaves ((Spare graph.old graph.new) × (Spare word.old word.new)) (NamesDefault (buffers names.now index.now texts.now bind.now graph.old) c raw.now graph.new result) }
{
    let n = expand(t, raw, texts, bind, c.entries, word);
    if path_over(n, c) {
        return None;
    }
    Some(put_default(names, index, graph, c, &word[..n]))
}
