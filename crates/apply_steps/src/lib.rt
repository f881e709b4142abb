// A build line is written: its files are mentioned, and its step is put into the graph's columns.
#![tactic(auto)]

ghost use Rattle.lists.specs.Lent.{Spare, Leaves};
ghost use Rattle.apply_steps.specs.Asks.{StepAsks, WritesStep};
ghost use Rattle.hold_reading.specs.Buffers.{SameRoom, buffers};

use apply_step_columns::{put_step, rule_number};
use apply_step_lists::four;
use cut_forms::BuildPlaces;
use hold_bindings::current_scope;
use hold_reading::{Counts, Open, State};
use spec::Refusal;
use spec::limits::STEPS;

// A build line: where it starts in the manifest, and where its parts stand in it.
#[derive(Clone, Copy)]
pub struct BuildStatement {
    pub start: usize,
    pub places: BuildPlaces,
}

// The step of a line whose 7s and 8s were looked for before: only a limit can be met. The word buffer is
// working space.
pub fn write_step(
    t: &[u8; 256],
    l: &[u8],
    s: BuildStatement,
    names: &mut [u8],
    index: &mut [u32],
    texts: &[u8],
    bind: &[u32],
    graph: &mut [u32],
    word: &mut [u8],
    c: Counts,
) -> Result<State, Refusal>
    requires { StepAsks t.now l.now (buffers names.old index.old texts.now bind.now graph.old) word.old c s.places }
    ensures { Leaves (SameRoom (buffers names.old index.old texts.now bind.now graph.old) (buffers names.new index.new texts.now bind.now graph.new) × (Spare word.old word.new)) (WritesStep l.now (buffers names.old index.old texts.now bind.now graph.old) c s.start s.places names.new index.new graph.new result) }
{
    let p = s.places;
    if STEPS <= c.steps {
        return Err(Refusal::OverLimit(s.start));
    }
    let Some(d) = four(t, l, p, names, index, texts, bind, graph, word, c) else {
        return Err(Refusal::OverLimit(s.start));
    };
    let from = p.rule;
    let to = p.ins;
    let n = rule_number(&l[from..to], texts, bind, d.entries);
    let e = put_step(graph, c.paths, n, current_scope(bind), d);
    Ok(State {
        counts: e,
        open: Open::Step,
    })
}
