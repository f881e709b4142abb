// The runs of bytes that an expansion is made of.
#![tactic(auto)]

ghost use Rattle.std.specs.Prelude.{List, ℕ, ◌<◌, length};
ghost use Rattle.hold_bindings.specs.Held.{SoundBindings};
ghost use Rattle.expand_parts.specs.Runs.{BeginsRun, Variable, ExpandReady, Going, Filled};

use hold_bindings::{newest_seen, value_place};
use scan_dollars::{Escape, dollar};
use slices::bytes::find;

// A run of bytes of an expansion: a part of the raw text, or of the bound texts, and where the raw text goes on behind
// it.
#[derive(Clone, Copy)]
pub struct Run {
    pub bound: bool,
    pub from: usize,
    pub to: usize,
    pub next: usize,
}

// The value of a name, as a run.
fn variable(wanted: &[u8], texts: &[u8], bind: &[u32], count: usize, next: usize) -> Run
    requires { SoundBindings texts.now bind.now count }
    ensures { (raw : List ℕ) → Variable wanted.now raw texts.now bind.now count next result }
{
    match newest_seen(texts, bind, count, wanted) {
        Some(k) => {
            let p = value_place(texts, bind, k);
            Run {
                bound: true,
                from: p.from,
                to: p.to,
                next,
            }
        }
        None => Run {
            bound: false,
            from: next,
            to: next,
            next,
        },
    }
}

// The run that begins at place i of the raw text. It is built into what asks for it: a call hands each run over in
// memory, and a value of joins takes 1.8 times as long.
#[inline(always)]
pub fn run_at(t: &[u8; 256], raw: &[u8], i: usize, texts: &[u8], bind: &[u32], count: usize) -> Run
    requires { (i < length raw.now) × ExpandReady t.now raw.now texts.now bind.now count i }
    ensures { BeginsRun raw.now texts.now bind.now count i result }
{
    if raw[i] != b'$' {
        let end = find(raw, i, b'$');
        return Run {
            bound: false,
            from: i,
            to: end,
            next: end,
        };
    }
    match dollar(t, raw, i + 1) {
        Escape::Byte(_, next) => Run {
            bound: false,
            from: i + 1,
            to: i + 2,
            next,
        },
        Escape::Join(next) => Run {
            bound: false,
            from: next,
            to: next,
            next,
        },
        Escape::Name(from, to, next) => variable(&raw[from..to], texts, bind, count, next),
        Escape::Bad => Run {
            bound: false,
            from: i,
            to: i,
            next: raw.len(),
        },
    }
}

// The first run from r on that has a byte, or one at the end of the raw text. It is built into its callers, as `run_at`
// is.
#[inline(always)]
pub fn filled(t: &[u8; 256], raw: &[u8], texts: &[u8], bind: &[u32], count: usize, r: Run) -> Run
    requires { Going t.now raw.now texts.now bind.now count r }
    ensures { Filled raw.now texts.now bind.now count r result }
{
    let mut x = r;
    while x.to <= x.from {
        let next = x.next;
        if raw.len() <= next {
            return x;
        }
        x = run_at(t, raw, next, texts, bind, count);
    }
    x
}
