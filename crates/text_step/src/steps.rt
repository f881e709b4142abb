// The step that a text is asked of: its rule and its files.
ghost use Rattle.std.specs.Prelude.{◌≡◌};
ghost use Rattle.text_step.specs.Steps.{HasRule, Declares, outputs_from, InGraph, PickAsk, Picks, ReadingHeld, AsksStep};

use hold_bindings::{entry_name, newest};
use hold_columns::{INS_END, LAST_END, OUTS_END};
use hold_reading::Counts;
use hold_reading::columns::{RULE_START, SCOPE_UNIT, step_end};
use slices::words::at;
use text_lookup::Asked;
use text_recursion::DEEP;

// The declaration that a rule's name stands for, where entry k declares a rule of that name.
fn declaration(texts: &[u8], bind: &[u32], count: usize, k: usize) -> usize
    requires { HasRule texts.now bind.now count k }
    ensures { Declares texts.now bind.now count k result }
{
    newest(texts, bind, count, 1, entry_name(texts, bind, k)).unwrap_or(k)
}

// Where the mentions of a step start: where those of the step before it end.
fn outputs_from(graph: &[u32], step: usize) -> usize
    requires { InGraph graph.now step }
    ensures { result ≡ outputs_from graph.now step }
{
    if step == 0 {
        return 0;
    }
    step_end(graph, step - 1, LAST_END)
}

// The step, whose rule is declared at entry k, and which stands in a scope.
fn picked(
    texts: &[u8],
    bind: &[u32],
    graph: &[u32],
    c: Counts,
    step: usize,
    k: usize,
    scope: usize,
) -> Asked
    requires { PickAsk texts.now bind.now graph.now c step k scope }
    ensures { Picks texts.now bind.now graph.now c step result }
{
    let rule = declaration(texts, bind, c.entries, k);
    let outs = outputs_from(graph, step);
    let ins = step_end(graph, step, OUTS_END);
    let rest = step_end(graph, step, INS_END);
    Asked {
        step,
        rule,
        scope,
        entries: c.entries,
        files: c.files,
        outs,
        ins,
        rest,
        depth: DEEP,
        plain: false,
    }
}

// The step that is asked for; `None` where there is no such step, or it is phony (18).
pub fn asked(texts: &[u8], bind: &[u32], graph: &[u32], c: Counts, step: usize) -> Option<Asked>
    requires { ReadingHeld texts.now bind.now graph.now c }
    ensures { AsksStep texts.now bind.now graph.now c step result }
{
    if c.steps <= step {
        return None;
    }
    let both = at(graph, RULE_START + step);
    let rule = both % SCOPE_UNIT;
    if rule == 0 {
        return None;
    }
    Some(picked(texts, bind, graph, c, step, rule - 1, both / SCOPE_UNIT))
}
