// Which steps are stale.
#![tactic(auto)]

ghost use Rattle.std.specs.Prelude.{◌≡◌, ℕ, ◌<◌, length, get_or};
ghost use Rattle.lists.specs.Members.{◌∈◌};
ghost use Rattle.hold_columns.specs.Columns.{FilesMade, PartsPlaced};
ghost use Rattle.graph_stale.specs.Judge.{file_time, newest_of, stale_maker, outdated, bare_missing, FileAsked, FilesAsked, JudgeAsked, Judges, AllAsked, AllTold, CommandsKept, StaleAsked, StaleMarked};

use hold_columns::{Columns, inputs, maker, non_order_only, outs, time};
use slices::words::at;
use spec::limits::STEPS;

// What is told of a step: 1 if it is stale, else 0, and the time that its missing outputs have if it is phony.
// `stale` is a number, and not a `bool`: it goes into a fixed column of numbers, and `Judges` reads it as one.
#[derive(Clone, Copy)]
pub struct Judged {
    pub stale: u32,
    pub time: u64,
}

// The time of a file: the card's, or the one that its phony maker gives.
fn file_time(made: &[u32], phony: &[u32], times: &[u64], late: &[u64], f: usize) -> u64
    requires { FileAsked made.now phony.now times.now late.now f }
    ensures { result ≡ file_time made.now phony.now times.now late.now f }
{
    let t = time(times, f);
    if t != 0 {
        return t;
    }
    let m = at(made, f);
    if m == 0 {
        return 0;
    }
    if at(phony, m - 1) != 1 {
        return 0;
    }
    time(late, m - 1)
}

// The greatest time of these files.
fn newest(fs: &[u32], made: &[u32], phony: &[u32], times: &[u64], late: &[u64]) -> u64
    requires { FilesAsked fs.now made.now phony.now times.now late.now }
    ensures { result ≡ newest_of made.now phony.now times.now late.now fs.now }
{
    let mut t = 0;
    for &f in fs {
        t = t.max(file_time(made, phony, times, late, f as usize));
    }
    t
}

// Is a maker of these files stale.
fn stale_maker(fs: &[u32], made: &[u32], stale: &[u32]) -> bool
    requires { FilesMade (length stale.now) fs.now made.now }
    ensures { result ≡ stale_maker made.now stale.now fs.now }
{
    for i in 0..fs.len() {
        let m = maker(fs, i, made);
        if m == 0 {
            continue;
        }
        if at(stale, m - 1) == 1 {
            return true;
        }
    }
    false
}

// Is one of these files missing, or older than t.
fn is_outdated(fs: &[u32], times: &[u64], t: u64) -> bool
    requires { (i : ℕ) → i < length fs.now → get_or fs.now i 0 < length times.now }
    ensures { result ≡ outdated times.now t fs.now }
{
    for &f in fs {
        let u = time(times, f as usize);
        if u == 0 {
            return true;
        }
        if u < t {
            return true;
        }
    }
    false
}

// Has the step no inputs at all, and is an output missing.
fn bare_missing(g: &Columns, times: &[u64], s: usize) -> bool
    requires { PartsPlaced g.now.mentions.now g.now.ends.now s × ((f : ℕ) → f ∈ g.now.mentions.now → f < length times.now) }
    ensures { result ≡ bare_missing g.now.mentions.now g.now.ends.now times.now s }
{
    let fs = inputs(g.mentions, g.ends, s);
    if !fs.is_empty() {
        return false;
    }
    is_outdated(outs(g.mentions, g.ends, s), times, 0)
}

// The verdict on a step, from what the two columns say of the makers of its inputs.
fn judge(g: &Columns, times: &[u64], stale: &[u32], late: &[u64], s: usize) -> Judged
    requires { JudgeAsked g.now.mentions.now g.now.ends.now g.now.phony.now g.now.made.now times.now stale.now late.now × (s < length g.now.phony.now) }
    ensures { Judges g.now.mentions.now g.now.ends.now g.now.phony.now g.now.made.now times.now stale.now late.now s result }
{
    let fs = non_order_only(g.mentions, g.ends, s);
    let t = newest(fs, g.made, g.phony, times, late);
    if stale_maker(fs, g.made, stale) {
        return Judged { stale: 1, time: t };
    }
    if at(g.phony, s) == 1 {
        return Judged {
            stale: u32::from(bare_missing(g, times, s)),
            time: t,
        };
    }
    Judged {
        stale: u32::from(is_outdated(outs(g.mentions, g.ends, s), times, t)),
        time: t,
    }
}

// The verdicts on the steps of an order, each from those before it.
fn judge_all(g: &Columns, times: &[u64], order: &[u32], stale: &mut [u32], late: &mut [u64])
    requires { AllAsked g.now.mentions.now g.now.ends.now g.now.phony.now g.now.made.now times.now order.now stale.old late.old }
    ensures { AllTold g.now.mentions.now g.now.ends.now g.now.phony.now g.now.made.now times.now order.now stale.old stale.new late.new }
{
    for &step in order {
        let s = step as usize;
        let v = judge(g, times, stale, late, s);
        stale[s] = v.stale;
        late[s] = v.time;
    }
}

// Takes the marks of the phony steps off.
fn keep_commands(phony: &[u32], marks: &mut [u32])
    requires { length marks.old ≡ length phony.now }
    ensures { CommandsKept phony.now marks.old marks.new }
{
    for s in 0..phony.len() {
        if at(phony, s) == 1 {
            marks[s] = 0;
        }
    }
}

// Marks the stale command steps of the order.
pub fn stale_commands(g: &Columns, times: &[u64], order: &[u32], marks: &mut [u32])
    requires { StaleAsked g.now.mentions.now g.now.ends.now g.now.phony.now g.now.made.now times.now order.now marks.old }
    ensures { StaleMarked g.now.mentions.now g.now.ends.now g.now.phony.now g.now.made.now times.now order.now marks.new }
{
    let n = g.phony.len();
    let mut late = [0u64; STEPS];
    judge_all(g, times, order, marks, &mut late[..n]);
    keep_commands(g.phony, marks);
}
