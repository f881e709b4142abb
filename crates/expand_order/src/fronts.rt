// Two runs compared from their fronts.
ghost use Rattle.expand_parts.specs.Runs.{bytes_of, RunPlaced};
ghost use Rattle.expand_order.specs.Ahead.{FrontsCompared};

use crate::Ahead;
use byte_order::compare;
use expand_parts::Run;
use std::cmp::Ordering;

// Two runs of bytes, as far as the shorter one goes.
fn ahead(p: &[u8], q: &[u8]) -> Ahead
    ensures { FrontsCompared p.now q.now result }
{
    let n = p.len().min(q.len());
    match compare(&p[..n], &q[..n]) {
        Ordering::Less => Ahead::Less,
        Ordering::Equal => Ahead::Both(n),
        Ordering::Greater => Ahead::Greater,
    }
}

// Some bytes and a run of b.
fn against(p: &[u8], b: &[u8], texts: &[u8], y: Run) -> Ahead
    requires { RunPlaced b.now texts.now y }
    ensures { FrontsCompared p.now (bytes_of b.now texts.now y) result }
{
    if y.bound {
        ahead(p, &texts[y.from..y.to])
    } else {
        ahead(p, &b[y.from..y.to])
    }
}

// A run of a and a run of b.
pub fn runs_ahead(a: &[u8], b: &[u8], texts: &[u8], x: Run, y: Run) -> Ahead
    requires { RunPlaced a.now texts.now x × RunPlaced b.now texts.now y }
    ensures { FrontsCompared (bytes_of a.now texts.now x) (bytes_of b.now texts.now y) result }
{
    if x.bound {
        against(&texts[x.from..x.to], b, texts, y)
    } else {
        against(&a[x.from..x.to], b, texts, y)
    }
}
