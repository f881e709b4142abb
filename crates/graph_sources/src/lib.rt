// Sources: the lowest missing one that is needed.
#![tactic(auto)]

ghost use Rattle.std.specs.Prelude.{◌≡◌, [], ◌∷◌, ℕ, ◌<◌, length, get_or};
ghost use Rattle.graph_sources.specs.Sources.{Lowered, MissingFound, SourceAsked};

use hold_columns::{inputs, time};
use slices::words::at;

// f where it is a missing source below `low`, else `low`.
// The number of files stands for none: one compare then finds the lowest, and `missing_source` answers an `Option`.
fn lower(f: usize, made: &[u32], times: &[u64], low: usize) -> usize
    requires { (f < length made.now) × (length times.now ≡ length made.now) }
    ensures { Lowered times.now made.now (f ∷ []) low result }
{
    if low <= f {
        return low;
    }
    if at(made, f) != 0 {
        return low;
    }
    if time(times, f) != 0 {
        return low;
    }
    f
}

// The lowest of the missing sources among these files, if it is below `best`, else `best`.
fn lowest_absent(fs: &[u32], made: &[u32], times: &[u64], best: usize) -> usize
    requires { ((i : ℕ) → i < length fs.now → get_or fs.now i 0 < length made.now) × (length times.now ≡ length made.now) }
    ensures { Lowered times.now made.now fs.now best result }
{
    let mut low = best;
    for &f in fs {
        low = lower(f as usize, made, times, low);
    }
    low
}

// The lowest missing source among the roots and the inputs of these steps, or none.
pub fn missing_source(
    mentions: &[u32],
    ends: &[u32],
    made: &[u32],
    times: &[u64],
    roots: &[u32],
    order: &[u32],
) -> Option<usize>
    requires { SourceAsked mentions.now ends.now made.now times.now roots.now order.now }
    ensures { MissingFound mentions.now ends.now made.now times.now roots.now order.now (length made.now) result }
{
    let mut low = lowest_absent(roots, made, times, made.len());
    for &s in order {
        let fs = inputs(mentions, ends, s as usize);
        low = lowest_absent(fs, made, times, low);
    }
    if low < made.len() {
        return Some(low);
    }
    None
}
