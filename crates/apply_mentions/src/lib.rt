// Files mentioned by a line: each path is expanded and marked in the graph's columns.
#![tactic(auto)]

ghost use Rattle.lists.specs.Lent.{Spare, Leaves};
ghost use Rattle.apply_mentions.specs.Asks.{MentionAsks, Mentions, MentionListAsks, MentionsAll};
ghost use Rattle.hold_reading.specs.Buffers.{SameRoom, buffers};

use apply_files::{add_path, path_over};
use cut_forms::paths::next_listed;
use expand_dollars::expand;
use hold_reading::Counts;

// A raw path: the counts with its mention, or `None` where it takes the line over a limit. The word buffer is working
// space.
pub fn mention(
    t: &[u8; 256],
    raw: &[u8],
    names: &mut [u8],
    index: &mut [u32],
    texts: &[u8],
    bind: &[u32],
    graph: &mut [u32],
    word: &mut [u8],
    c: Counts,
) -> Option<Counts>
    requires { MentionAsks t.now raw.now (buffers names.old index.old texts.now bind.now graph.old) word.old c }
    ensures { Leaves (SameRoom (buffers names.old index.old texts.now bind.now graph.old) (buffers names.new index.new texts.now bind.now graph.new) × (Spare word.old word.new)) (Mentions raw.now (buffers names.old index.old texts.now bind.now graph.old) c names.new index.new graph.new result) }
{
    let n = expand(t, raw, texts, bind, c.entries, word);
    if path_over(n, c) {
        return None;
    }
    add_path(&word[..n], names, index, graph, c)
}

// All paths of the list that starts at a place.
pub fn mention_all(
    t: &[u8; 256],
    l: &[u8],
    at: usize,
    names: &mut [u8],
    index: &mut [u32],
    texts: &[u8],
    bind: &[u32],
    graph: &mut [u32],
    word: &mut [u8],
    c: Counts,
) -> Option<Counts>
    requires { MentionListAsks t.now l.now (buffers names.old index.old texts.now bind.now graph.old) word.old c at }
    ensures { Leaves (SameRoom (buffers names.old index.old texts.now bind.now graph.old) (buffers names.new index.new texts.now bind.now graph.new) × (Spare word.old word.new)) (MentionsAll l.now at (buffers names.old index.old texts.now bind.now graph.old) c names.new index.new graph.new result) }
{
    let mut i = at;
    let mut d = c;
    while let Some((from, to)) = next_listed(t, l, i) {
        d = mention(t, &l[from..to], names, index, texts, bind, graph, word, d)?;
        i = to;
    }
    Some(d)
}
