// A step's lookup: what a name in its text stands for.
#![tactic(auto)]

ghost use Rattle.spec.specs.Text.{lookup_by};
ghost use Rattle.text_lookup.specs.Scope.{InScope, LooksUp, from_file, from_rule, from_block};

use byte_order::equal;
use hold_bindings::{newest, newest_from};

// The step that is asked for: its number, the entry of its rule's declaration in the table of bindings, the scope that
// its line stands in, how many entries and files there are, where its outputs and its explicit inputs start and end
// among the mentions, how many rule texts deep its text may still go, and whether names of files stand in it as they
// are, as in a text that no shell reads.
#[derive(Clone, Copy)]
pub struct Asked {
    pub step: usize,
    pub rule: usize,
    pub scope: usize,
    pub entries: usize,
    pub files: usize,
    pub outs: usize,
    pub ins: usize,
    pub rest: usize,
    pub depth: usize,
    pub plain: bool,
}

// Where the text of a name is.
#[derive(Clone, Copy)]
pub enum Source {
    // `in`, `in_newline` and `out`
    Inputs,
    InputLines,
    Outputs,
    // a value of the table of bindings as it is, by its entry
    Value(usize),
    // a rule's text, still to be expanded
    Text(usize),
    Unset,
}

// A name that neither the step nor its rule binds.
fn of_file(texts: &[u8], bind: &[u32], a: Asked, name: &[u8]) -> Source
    requires { InScope texts.now bind.now a }
    ensures { LooksUp texts.now bind.now a (λ spell. from_file name.now) result }
{
    match newest_from(texts, bind, a.entries, a.scope, name) {
        Some(k) => Source::Value(k),
        None => Source::Unset,
    }
}

// A name that the step does not bind.
fn of_rule(texts: &[u8], bind: &[u32], a: Asked, name: &[u8]) -> Source
    requires { InScope texts.now bind.now a }
    ensures { LooksUp texts.now bind.now a (λ spell. from_rule name.now) result }
{
    match newest(texts, bind, a.entries, 4 + 3 * a.rule, name) {
        Some(k) => Source::Text(k),
        None => of_file(texts, bind, a, name),
    }
}

// A name that is none of the step's files.
fn of_block(texts: &[u8], bind: &[u32], a: Asked, name: &[u8]) -> Source
    requires { InScope texts.now bind.now a }
    ensures { LooksUp texts.now bind.now a (λ spell. from_block name.now) result }
{
    match newest(texts, bind, a.entries, 5 + 3 * a.step, name) {
        Some(k) => Source::Value(k),
        None => of_rule(texts, bind, a, name),
    }
}

// "looked up as: `in`, `in_newline`, `out`; the block; the rule ..; the file"
pub fn lookup(texts: &[u8], bind: &[u32], a: Asked, name: &[u8]) -> Source
    requires { InScope texts.now bind.now a }
    ensures { LooksUp texts.now bind.now a (λ spell rd s. lookup_by spell rd s name.now) result }
{
    if equal(name, b"in") {
        return Source::Inputs;
    }
    if equal(name, b"in_newline") {
        return Source::InputLines;
    }
    if equal(name, b"out") {
        return Source::Outputs;
    }
    of_block(texts, bind, a, name)
}
