// What every line that binds a name shares: its limits, and its entry in the table of bindings.
#![tactic(auto)]

ghost use Rattle.std.specs.Prelude.{◌≡◌, ◌≤◌};
ghost use Rattle.spec.specs.Limits.{max_bindings, max_written};
ghost use Rattle.hold_bindings.specs.Log.{logged};
ghost use Rattle.apply_bindings.specs.Limits.{binding_over, EntryReady, PutsBinding};

use hold_bindings::push;
use hold_reading::Counts;
use spec::limits::{BINDINGS, NAME, VALUE, WRITTEN};

// Whether a line is over a limit, whose name and value have so many bytes. The tests stand one by one: of four joined
// by `||` the proof gets no names to cite.
pub fn binding_over(name: usize, value: usize, c: Counts) -> bool
    requires { (c.bindings ≤ max_bindings) × (c.written ≤ max_written) }
    ensures { result ≡ binding_over name value c }
{
    if NAME < name {
        return true;
    }
    if VALUE < value {
        return true;
    }
    if BINDINGS <= c.bindings {
        return true;
    }
    WRITTEN < c.written + value
}

// The line's entry, and the counts with it.
pub fn push_binding(
    texts: &mut [u8],
    bind: &mut [u32],
    c: Counts,
    owner: usize,
    name: &[u8],
    value: &[u8],
) -> Counts
    requires { EntryReady texts.old bind.old c (logged owner name.now value.now) }
    ensures { PutsBinding texts.old bind.old c (logged owner name.now value.now) texts.new bind.new result }
{
    let entries = c.entries;
    push(texts, bind, entries, owner, name, value);
    Counts {
        entries: entries + 1,
        bindings: c.bindings + 1,
        written: c.written + value.len(),
        ..c
    }
}
