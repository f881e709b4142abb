// Whether a step's text has no end: "a rule's text leads back, by the lookup, to a rule key already under expansion"
// (16).
#![tactic(auto)]

ghost use Rattle.std.specs.Prelude.{◌≡◌, List, []};
ghost use Rattle.lists.specs.Members.{any};
ghost use Rattle.spec.specs.Dollars.{refs};
ghost use Rattle.spec.specs.Reading.{Step, Reading};
ghost use Rattle.spec.specs.Text.{key_name, leads_back, deep};
ghost use Rattle.hold_bindings.specs.Log.{Logged};
ghost use Rattle.text_references.specs.Begins.{ReferencesReady};
ghost use Rattle.text_lookup.specs.Scope.{StepScope};
ghost use Rattle.text_recursion.specs.Depth.{marks, leads_to, RecursionAsks, Deeper};

use hold_bindings::value;
use hold_keys::{RULE_KEYS, key_name, key_names, key_number, number_of};
use spec::Key;
use text_lookup::{Asked, Source, lookup};
use text_references::{Piece, piece_at};

// A rule has at most five keys, so that a text that goes six rule texts deep has come back to one.
pub const DEEP: usize = RULE_KEYS + 1;

// A mark for each of a rule's keys, by its number, and one for all other names behind them.
const MARKS: usize = RULE_KEYS + 1;

fn marked(d: [bool; MARKS], name: &[u8]) -> bool
    ensures { result ≡ marks d name.now }
{
    let k = key_number(name);
    d[k]
}

// Whether a raw text refers to a marked name.
fn refers(t: &[u8; 256], raw: &[u8], d: [bool; MARKS]) -> bool
    requires { ReferencesReady t.now raw.now 0 }
    ensures { result ≡ any (marks d) (refs raw.now) }
{
    let mut i = 0;
    while i < raw.len() {
        match piece_at(t, raw, i) {
            Piece::Bytes(_, _, next) => {
                i = next;
            }
            Piece::Name(from, to, next) => {
                if marked(d, &raw[from..to]) {
                    return true;
                }
                i = next;
            }
        }
    }
    false
}

// Whether a name stands for a rule's text that refers to a marked name.
fn leads(t: &[u8; 256], texts: &[u8], bind: &[u32], a: Asked, name: &[u8], d: [bool; MARKS]) -> bool
    requires { RecursionAsks t.now texts.now bind.now a }
    ensures { (log : List Logged) (rd : Reading) (s : Step) → StepScope texts.now bind.now a log rd s → result ≡ leads_to rd s (marks d) name.now }
{
    // each kind of source is named, so that a new one is decided on here
    match lookup(texts, bind, a, name) {
        Source::Text(k) => refers(t, value(texts, bind, k), d),
        Source::Inputs => false,
        Source::InputLines => false,
        Source::Outputs => false,
        Source::Value(_) => false,
        Source::Unset => false,
    }
}

// The names that go one rule text deeper.
fn deeper(t: &[u8; 256], texts: &[u8], bind: &[u32], a: Asked, d: [bool; MARKS]) -> [bool; MARKS]
    requires { RecursionAsks t.now texts.now bind.now a }
    ensures { Deeper texts.now bind.now a d result }
{
    let names = key_names();
    let mut r = [false; MARKS];
    for k in 0..RULE_KEYS {
        r[k] = leads(t, texts, bind, a, key_name(&names, k), d);
    }
    r
}

pub fn leads_back(t: &[u8; 256], texts: &[u8], bind: &[u32], a: Asked, key: Key) -> bool
    requires { RecursionAsks t.now texts.now bind.now a }
    ensures { (log : List Logged) (rd : Reading) (s : Step) → StepScope texts.now bind.now a log rd s → result ≡ leads_back rd s deep [] (key_name key) }
{
    let n = number_of(key);
    let mut d = [true; MARKS];
    // only the invariant counts by k
    for k in 0..DEEP {
        d = deeper(t, texts, bind, a, d);
        // what does not go so deep goes no deeper
        if !d[n] {
            return false;
        }
    }
    d[n]
}
