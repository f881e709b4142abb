// Whether anything that was read is called `depfile`: where nothing is, there are no header lists to look for.
#![tactic(auto)]

ghost use Rattle.std.specs.Prelude.{◌≡◌, List};
ghost use Rattle.hold_bindings.specs.Log.{Logged};
ghost use Rattle.hold_bindings.specs.Held.{HoldsBindings, SoundBindings};
ghost use Rattle.ask_depfile_bound.specs.Bound.{depfile_bound};

use byte_order::equal;
use hold_bindings::entry_name;

// Whether one of the entries has that name: a rule's key, a line of a block or a file variable. A rule of that name
// counts too, which costs no more than the longer way.
pub fn depfile_bound(texts: &[u8], bind: &[u32], count: usize) -> bool
    requires { SoundBindings texts.now bind.now count }
    ensures { (log : List Logged) → HoldsBindings log texts.now bind.now count → result ≡ depfile_bound log }
{
    for k in 0..count {
        if equal(b"depfile", entry_name(texts, bind, k)) {
            return true;
        }
    }
    false
}
