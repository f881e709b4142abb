// Rule blocks: "`rule NAME`, then indented `key = value` lines: `command` (needed), `description`, `generator`, each
// at most once, kept unexpanded." Document 02 has one key more: "Accept `depfile`."
#![tactic(auto)]

ghost use Rattle.lists.specs.Lent.{Spare, Leaves};
ghost use Rattle.spec.specs.Statements.{start_rule, block_line};
ghost use Rattle.spec.specs.Manifest.{close};
ghost use Rattle.hold_reading.specs.Binds.{SoundBlock, Meets};

use apply_bindings::{binding_over, push_binding};
use hold_bindings::push;
use hold_reading::{Counts, Open, State};
use hold_rules::{has_command, is_bad_key, is_declared};
use spec::Refusal;
use spec::limits::{NAME, RULES};

// `rule NAME`, where no block is open: the rule's entry, and its block opens.
pub fn start_rule(
    start: usize,
    name: &[u8],
    texts: &mut [u8],
    bind: &mut [u32],
    c: Counts,
) -> Result<State, Refusal>
    requires { SoundBlock texts.old bind.old c Open.Nothing }
    ensures { Leaves ((Spare texts.old texts.new) × (Spare bind.old bind.new)) (Meets texts.old bind.old c Open.Nothing (λ rd b. start_rule start name.now rd) texts.new bind.new result) }
{
    if is_declared(texts, bind, c, name) {
        return Err(Refusal::BadRule(start));
    }
    if NAME < name.len() {
        return Err(Refusal::OverLimit(start));
    }
    if RULES <= c.rules {
        return Err(Refusal::OverLimit(start));
    }
    let entry = c.entries;
    push(texts, bind, entry, 1, name, b"");
    let d = Counts {
        entries: entry + 1,
        rules: c.rules + 1,
        ..c
    };
    Ok(State {
        counts: d,
        open: Open::Rule(start, entry),
    })
}

// A line of the open rule's block.
pub fn add_key(
    start: usize,
    head: usize,
    entry: usize,
    name: &[u8],
    raw: &[u8],
    texts: &mut [u8],
    bind: &mut [u32],
    c: Counts,
) -> Result<State, Refusal>
    requires { SoundBlock texts.old bind.old c (Open.Rule head entry) }
    ensures { Leaves ((Spare texts.old texts.new) × (Spare bind.old bind.new)) (Meets texts.old bind.old c (Open.Rule head entry) (λ rd b. block_line start b name.now raw.now rd) texts.new bind.new result) }
{
    if is_bad_key(texts, bind, c.entries, entry, name) {
        return Err(Refusal::BadRule(start));
    }
    if binding_over(name.len(), raw.len(), c) {
        return Err(Refusal::OverLimit(start));
    }
    let d = push_binding(texts, bind, c, 4 + 3 * entry, name, raw);
    Ok(State {
        counts: d,
        open: Open::Rule(head, entry),
    })
}

// "A missing `command` is found when its block closes, at the rule's line."
pub fn close(texts: &[u8], bind: &[u32], c: Counts, block: Open) -> Result<State, Refusal>
    requires { SoundBlock texts.now bind.now c block }
    ensures { Meets texts.now bind.now c block close texts.now bind.now result }
{
    match block {
        Open::Nothing | Open::Step => Ok(State {
            counts: c,
            open: Open::Nothing,
        }),
        Open::Rule(head, entry) => {
            if has_command(texts, bind, c, entry) {
                Ok(State {
                    counts: c,
                    open: Open::Nothing,
                })
            } else {
                Err(Refusal::BadRule(head))
            }
        }
    }
}
