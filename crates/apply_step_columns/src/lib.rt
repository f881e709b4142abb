// A step is put into the graph's columns: the makers of its outputs, phony or not, and its rule's number with its
// scope.
#![tactic(auto)]

ghost use Rattle.std.specs.Prelude.{◌≡◌, List};
ghost use Rattle.hold_bindings.specs.Log.{Logged};
ghost use Rattle.hold_bindings.specs.Held.{HoldsBindings, SoundBindings};
ghost use Rattle.apply_step_columns.specs.StepColumns.{rule_number, phony_bit, MakeAsks, MarksMade, PutStepAsks, PutsStep};

use arena::put;
use byte_order::equal;
use hold_bindings::newest;
use hold_columns::OUTS_END;
use hold_reading::Counts;
use hold_reading::columns::{MADE_START, PHONY_START, RULE_START, SCOPE_UNIT, step_end};
use slices::words::at;

// 0 for phony, else the number of the rule's declaration and one more.
// It goes into a column of numbers, fixed memory: no `Option`.
pub fn rule_number(name: &[u8], texts: &[u8], bind: &[u32], count: usize) -> usize
    requires { SoundBindings texts.now bind.now count }
    ensures { (log : List Logged) → HoldsBindings log texts.now bind.now count → result ≡ rule_number name.now log }
{
    if equal(name, b"phony") {
        return 0;
    }
    match newest(texts, bind, count, 1, name) {
        Some(k) => k + 1,
        None => 0,
    }
}

// The files from one place of the mentions to another are made by v.
fn make(graph: &mut [u32], from: usize, to: usize, v: usize)
    requires { MakeAsks graph.old from to v }
    ensures { MarksMade graph.old from to v graph.new }
{
    for i in from..to {
        let f = at(graph, i);
        put(graph, MADE_START + f, v);
    }
}

fn phony_bit(n: usize) -> usize
    ensures { result ≡ phony_bit n }
{
    usize::from(n == 0)
}

// The step whose outputs start at `from`, with its rule's number and the scope that it stands in.
pub fn put_step(graph: &mut [u32], from: usize, n: usize, scope: usize, c: Counts) -> Counts
    requires { PutStepAsks graph.old from n scope c }
    ensures { PutsStep graph.old from n scope c graph.new result }
{
    let steps = c.steps;
    let to = step_end(graph, steps, OUTS_END);
    make(graph, from, to, steps + 1);
    put(graph, PHONY_START + steps, phony_bit(n));
    put(graph, RULE_START + steps, SCOPE_UNIT * scope + n);
    Counts {
        steps: steps + 1,
        ..c
    }
}
