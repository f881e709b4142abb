// What is looked up among the bindings for a rule: whether it is declared, and whether it has a key.
#![tactic(auto)]

ghost use Rattle.std.specs.Prelude.{◌≡◌, List};
ghost use Rattle.lists.specs.Text.{bytes};
ghost use Rattle.spec.specs.Reading.{Reading, declared};
ghost use Rattle.spec.specs.Statements.{rule_key};
ghost use Rattle.hold_bindings.specs.Log.{Logged, is_at, newest};
ghost use Rattle.hold_bindings.specs.Held.{HoldsBindings, SoundBindings};
ghost use Rattle.hold_reading.specs.Held.{HoldsBound};
ghost use Rattle.hold_rules.specs.Tests.{OfRule, keyed, bad_key};

use byte_order::equal;
use hold_bindings::newest;
use hold_keys::key_number;
use hold_reading::Counts;

// The keys of this edition are the first four: "`command` (needed), `description`, `generator`", and "Accept
// `depfile`" (document 02).
const EDITION: usize = 4;

// Whether an owner has a line of this name.
fn has_line(texts: &[u8], bind: &[u32], count: usize, owner: usize, name: &[u8]) -> bool
    requires { SoundBindings texts.now bind.now count }
    ensures { (log : List Logged) → HoldsBindings log texts.now bind.now count → result ≡ is_at (newest owner name.now log) }
{
    newest(texts, bind, count, owner, name).is_some()
}

// "`phony` is declared from the start."
pub fn is_declared(texts: &[u8], bind: &[u32], c: Counts, name: &[u8]) -> bool
    requires { SoundBindings texts.now bind.now c.entries }
    ensures { (log : List Logged) (rd : Reading) → HoldsBound log texts.now bind.now c rd → result ≡ declared name.now rd }
{
    equal(name, b"phony") || has_line(texts, bind, c.entries, 1, name)
}

fn is_rule_key(name: &[u8]) -> bool
    ensures { result ≡ rule_key name.now }
{
    key_number(name) < EDITION
}

// Whether the rule declared at an entry has this key.
fn has_key(texts: &[u8], bind: &[u32], count: usize, entry: usize, name: &[u8]) -> bool
    requires { OfRule texts.now bind.now count entry }
    ensures { (log : List Logged) → HoldsBindings log texts.now bind.now count → result ≡ keyed entry name.now log }
{
    has_line(texts, bind, count, 4 + 3 * entry, name)
}

// "key twice or unknown in a rule" (7)
pub fn is_bad_key(texts: &[u8], bind: &[u32], count: usize, entry: usize, name: &[u8]) -> bool
    requires { OfRule texts.now bind.now count entry }
    ensures { (log : List Logged) → HoldsBindings log texts.now bind.now count → result ≡ bad_key entry name.now log }
{
    !is_rule_key(name) || has_key(texts, bind, count, entry, name)
}

pub fn has_command(texts: &[u8], bind: &[u32], c: Counts, entry: usize) -> bool
    requires { OfRule texts.now bind.now c.entries entry }
    ensures { (log : List Logged) → HoldsBindings log texts.now bind.now c.entries → result ≡ keyed entry (bytes "command") log }
{
    has_key(texts, bind, c.entries, entry, b"command")
}
