// Build lines: the rule is declared (7), no path is empty and no output made twice (8), and only then the step is
// written, within the limits (9).
#![tactic(auto)]

ghost use Rattle.lists.specs.Lent.{Spare, Leaves};
ghost use Rattle.spec.specs.Forms.{BuildLine};
ghost use Rattle.spec.specs.Statements.{add_step, expanded_line};
ghost use Rattle.cut_forms.specs.Statements.{Stands};
ghost use Rattle.hold_reading.specs.Adds.{AddsFiles};
ghost use Rattle.apply_builds.specs.Asks.{BuildAsks};
ghost use Rattle.hold_reading.specs.Buffers.{SameRoom, buffers};

use apply_bad_paths::bad_paths;
use apply_steps::{BuildStatement, write_step};
use hold_reading::{Counts, State};
use hold_rules::is_declared;
use spec::Refusal;

// `build OUTS: RULE INS | IMPLICIT || ORDERONLY`, where no block is open. The step joins the graph, and its block
// opens. The word buffer is working space.
pub fn add_step(
    t: &[u8; 256],
    l: &[u8],
    s: BuildStatement,
    names: &mut [u8],
    index: &mut [u32],
    texts: &[u8],
    bind: &[u32],
    graph: &mut [u32],
    word: &mut [u8],
    c: Counts,
) -> Result<State, Refusal>
    requires { BuildAsks t.now l.now (buffers names.old index.old texts.now bind.now graph.old) word.old c s.places }
    ensures { Leaves (SameRoom (buffers names.old index.old texts.now bind.now graph.old) (buffers names.new index.new texts.now bind.now graph.new) × (Spare word.old word.new)) ((b : BuildLine) → Stands l.now s.places b → AddsFiles (buffers names.old index.old texts.now bind.now graph.old) c (λ rd. add_step s.start (expanded_line rd b) rd) names.new index.new graph.new result) }
{
    let p = s.places;
    let from = p.rule;
    let to = p.ins;
    if !is_declared(texts, bind, c, &l[from..to]) {
        return Err(Refusal::BadRule(s.start));
    }
    if bad_paths(t, l, p, names, index, texts, bind, graph, word, c) {
        return Err(Refusal::BadPath(s.start));
    }
    write_step(t, l, s, names, index, texts, bind, graph, word, c)
}
