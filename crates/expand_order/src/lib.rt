// How what two raw texts expand to compares: run by run, with nothing written out.
#![tactic(auto)]

ghost use Rattle.std.specs.Prelude.{◌≡◌, List};
ghost use Rattle.hold_bindings.specs.Log.{Logged};
ghost use Rattle.hold_bindings.specs.Held.{HoldsBindings};
ghost use Rattle.lists.specs.Order.{order_bytes};
ghost use Rattle.expand_parts.specs.Runs.{expanded_by, ExpandReady};
ghost use Rattle.expand_order.specs.Ahead.{order_lengths};

mod fronts;

use crate::fronts::runs_ahead;
use expand_parts::{Run, filled};
use std::cmp::Ordering;

// What the front of two runs says: which of the two comes first, or the first n bytes are the same, and one of the two
// has no more.
#[derive(Clone, Copy)]
pub enum Ahead {
    Less,
    Greater,
    Both(usize),
}

// How the lengths of two runs compare.
fn longer(i: usize, j: usize) -> Ordering
    ensures { result ≡ order_lengths i j }
{
    i.cmp(&j)
}

// How what two raw texts expand to compares.
pub fn order(
    t: &[u8; 256],
    a: &[u8],
    b: &[u8],
    texts: &[u8],
    bind: &[u32],
    count: usize,
) -> Ordering
    requires { ExpandReady t.now a.now texts.now bind.now count 0 × ExpandReady t.now b.now texts.now bind.now count 0 }
    ensures { (log : List Logged) → HoldsBindings log texts.now bind.now count → result ≡ order_bytes (expanded_by log a.now) (expanded_by log b.now) }
{
    let mut x = Run {
        bound: false,
        from: 0,
        to: 0,
        next: 0,
    };
    let mut y = Run {
        bound: false,
        from: 0,
        to: 0,
        next: 0,
    };
    loop {
        x = filled(t, a, texts, bind, count, x);
        y = filled(t, b, texts, bind, count, y);
        match runs_ahead(a, b, texts, x, y) {
            Ahead::Less => return Ordering::Less,
            Ahead::Greater => return Ordering::Greater,
            Ahead::Both(n) => {
                if n == 0 {
                    return longer(x.to - x.from, y.to - y.from);
                }
                x.from += n;
                y.from += n;
            }
        }
    }
}
