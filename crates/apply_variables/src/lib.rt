// Variables, and the lines of build blocks: a value is expanded at once with the file's variables as they then stand.
#![tactic(auto)]

ghost use Rattle.std.specs.Prelude.{◌≡◌};
ghost use Rattle.lists.specs.Lent.{Spare, Leaves};
ghost use Rattle.spec.specs.Dollars.{expand};
ghost use Rattle.spec.specs.Reading.{file_var};
ghost use Rattle.spec.specs.Statements.{add_var, wrong_version, block_line};
ghost use Rattle.hold_reading.specs.Binds.{Meets};
ghost use Rattle.apply_variables.specs.Asks.{BindingAsks, RoomForBinding};

use apply_bindings::{binding_over, push_binding};
use byte_order::equal;
use expand_dollars::expand;
use hold_bindings::current_scope;
use hold_reading::{Counts, Open, State};
use spec::Refusal;
use version::Version;

// "`ninja_required_version` at file level is checked at once."
fn is_wrong_version(name: &[u8], value: &[u8]) -> bool
    ensures { result ≡ wrong_version name.now value.now }
{
    equal(name, b"ninja_required_version") && Version::refused(value)
}

// A variable of the scope that is read in, whose line is within the limits.
fn set_var(
    start: usize,
    name: &[u8],
    value: &[u8],
    texts: &mut [u8],
    bind: &mut [u32],
    c: Counts,
) -> Result<State, Refusal>
    requires { RoomForBinding texts.old bind.old c Open.Nothing name.now value.now }
    ensures { Leaves ((Spare texts.old texts.new) × (Spare bind.old bind.new)) (Meets texts.old bind.old c Open.Nothing (λ rd b. add_var start name.now value.now rd) texts.new bind.new result) }
{
    if is_wrong_version(name, value) {
        return Err(Refusal::BadVersion(start));
    }
    let scope = current_scope(bind);
    let d = push_binding(texts, bind, c, 3 * scope, name, value);
    Ok(State {
        counts: d,
        open: Open::Nothing,
    })
}

// `NAME = value`, where no block is open. The word buffer is working space.
pub fn add_var(
    t: &[u8; 256],
    start: usize,
    name: &[u8],
    raw: &[u8],
    texts: &mut [u8],
    bind: &mut [u32],
    word: &mut [u8],
    c: Counts,
) -> Result<State, Refusal>
    requires { BindingAsks t.now raw.now texts.old bind.old word.old c Open.Nothing }
    ensures { Leaves ((Spare texts.old texts.new) × (Spare bind.old bind.new) × (Spare word.old word.new)) (Meets texts.old bind.old c Open.Nothing (λ rd b. add_var start name.now (expand (file_var rd.vars) raw.now) rd) texts.new bind.new result) }
{
    let n = expand(t, raw, texts, bind, c.entries, word);
    if binding_over(name.len(), n, c) {
        return Err(Refusal::OverLimit(start));
    }
    set_var(start, name, &word[..n], texts, bind, c)
}

// A line of the newest step's block, which is open. The word buffer is working space.
pub fn add_to_block(
    t: &[u8; 256],
    start: usize,
    name: &[u8],
    raw: &[u8],
    texts: &mut [u8],
    bind: &mut [u32],
    word: &mut [u8],
    c: Counts,
) -> Result<State, Refusal>
    requires { BindingAsks t.now raw.now texts.old bind.old word.old c Open.Step }
    ensures { Leaves ((Spare texts.old texts.new) × (Spare bind.old bind.new) × (Spare word.old word.new)) (Meets texts.old bind.old c Open.Step (λ rd b. block_line start b name.now raw.now rd) texts.new bind.new result) }
{
    let len = expand(t, raw, texts, bind, c.entries, word);
    if binding_over(name.len(), len, c) {
        return Err(Refusal::OverLimit(start));
    }
    let d = push_binding(texts, bind, c, 5 + 3 * (c.steps - 1), name, &word[..len]);
    Ok(State {
        counts: d,
        open: Open::Step,
    })
}
