// Raw paths and values expanded with the file's variables.
#![tactic(auto)]

ghost use Rattle.std.specs.Prelude.{◌≡◌, List};
ghost use Rattle.hold_bindings.specs.Log.{Logged};
ghost use Rattle.hold_bindings.specs.Held.{HoldsBindings};
ghost use Rattle.expand_parts.specs.Runs.{expanded_by, bytes_of, RunPlaced, ExpandReady};
ghost use Rattle.expand_dollars.specs.Written.{laid_at, Written};

use expand_parts::{Run, run_at};
use slices::bytes::copy_at;

// Writes s into the buffer from place `at` on, as far as it fits.
fn put(word: &mut [u8], at: usize, s: &[u8])
    ensures { word.new ≡ laid_at word.old at s.now }
{
    if word.len() <= at {
        return;
    }
    let n = s.len().min(word.len() - at);
    copy_at(word, at, &s[..n]);
}

// Writes a run into the buffer from place `at` on, as far as it fits.
fn put_run(word: &mut [u8], at: usize, raw: &[u8], texts: &[u8], r: Run)
    requires { RunPlaced raw.now texts.now r }
    ensures { word.new ≡ laid_at word.old at (bytes_of raw.now texts.now r) }
{
    if r.bound {
        put(word, at, &texts[r.from..r.to]);
    } else {
        put(word, at, &raw[r.from..r.to]);
    }
}

// Writes the expansion of a raw text into the buffer as far as it fits, and gives the length of the whole. It is built
// into its callers, and `run_at` with it.
#[inline(always)]
pub fn expand(
    t: &[u8; 256],
    raw: &[u8],
    texts: &[u8],
    bind: &[u32],
    count: usize,
    word: &mut [u8],
) -> usize
    requires { ExpandReady t.now raw.now texts.now bind.now count 0 }
    ensures { (log : List Logged) → HoldsBindings log texts.now bind.now count → Written word.old (expanded_by log raw.now) word.new result }
{
    let mut i = 0;
    let mut n = 0;
    while i < raw.len() {
        let r = run_at(t, raw, i, texts, bind, count);
        put_run(word, n, raw, texts, r);
        n += r.to - r.from;
        i = r.next;
    }
    n
}
