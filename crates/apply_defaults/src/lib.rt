// Default lines: "`default PATHS`, one at least, each the output of an earlier step."
#![tactic(auto)]

ghost use Rattle.std.specs.Prelude.{List, ℕ};
ghost use Rattle.lists.specs.Lent.{Spare, Leaves};
ghost use Rattle.spec.specs.Statements.{add_defaults, expanded};
ghost use Rattle.cut_forms.specs.Paths.{PathsAt};
ghost use Rattle.hold_reading.specs.Adds.{AddsFiles};
ghost use Rattle.apply_defaults.specs.Asks.{DefaultAsks};
ghost use Rattle.apply_defaults.specs.Sound.{sound_defaults, SoundAsks};
ghost use Rattle.hold_reading.specs.Buffers.{buffers};

use apply_default_path::add_default;
use apply_path_checks::{PathKind, PathList, has_wrong};
use cut_forms::paths::next_listed;
use hold_reading::{Counts, Open, State};
use spec::Refusal;

// A default line: where it starts in the manifest, and where its paths start in it.
#[derive(Clone, Copy)]
pub struct DefaultStatement {
    pub start: usize,
    pub paths: usize,
}

// The paths of a default line without an 8. The word buffer is working space.
fn add_sound(
    t: &[u8; 256],
    l: &[u8],
    s: DefaultStatement,
    names: &[u8],
    index: &[u32],
    texts: &[u8],
    bind: &[u32],
    graph: &mut [u32],
    word: &mut [u8],
    c: Counts,
) -> Result<State, Refusal>
    requires { SoundAsks t.now l.now (buffers names.now index.now texts.now bind.now graph.old) word.old c s.paths }
    ensures { Leaves ((Spare graph.old graph.new) × (Spare word.old word.new)) ((ps : List (List ℕ)) → PathsAt l.now s.paths ps → AddsFiles (buffers names.now index.now texts.now bind.now graph.old) c (λ rd. sound_defaults s.start (expanded rd ps) rd) names.now index.now graph.new result) }
{
    let mut d = c;
    let mut i = s.paths;
    while let Some((from, to)) = next_listed(t, l, i) {
        let Some(e) = add_default(t, &l[from..to], names, index, texts, bind, graph, word, d) else {
            return Err(Refusal::OverLimit(s.start));
        };
        d = e;
        i = to;
    }
    Ok(State {
        counts: d,
        open: Open::Nothing,
    })
}

// `default PATHS`, where no block is open: its 8s first, for the whole line.
pub fn add_defaults(
    t: &[u8; 256],
    l: &[u8],
    s: DefaultStatement,
    names: &[u8],
    index: &[u32],
    texts: &[u8],
    bind: &[u32],
    graph: &mut [u32],
    word: &mut [u8],
    c: Counts,
) -> Result<State, Refusal>
    requires { DefaultAsks t.now l.now (buffers names.now index.now texts.now bind.now graph.old) word.old c s.paths }
    ensures { Leaves ((Spare graph.old graph.new) × (Spare word.old word.new)) ((ps : List (List ℕ)) → PathsAt l.now s.paths ps → AddsFiles (buffers names.now index.now texts.now bind.now graph.old) c (λ rd. add_defaults s.start (expanded rd ps) rd) names.now index.now graph.new result) }
{
    let list = PathList {
        start: s.paths,
        kind: PathKind::Default,
    };
    if has_wrong(t, l, list, names, index, texts, bind, graph, word, c) {
        return Err(Refusal::BadPath(s.start));
    }
    add_sound(t, l, s, names, index, texts, bind, graph, word, c)
}
