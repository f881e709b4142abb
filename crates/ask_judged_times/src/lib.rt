// The times by which steps are judged: a step that a depfile makes stale counts as one whose outputs are missing.
#![tactic(auto)]

ghost use Rattle.std.specs.Prelude.{◌≡◌, length, ◌<◌};
ghost use Rattle.lists.specs.Lent.{Spare, Leaves};
ghost use Rattle.ask_judged_times.specs.Lists.{listed_part, some_absent, forced_in, marked_maker, AbsentAsked, ListedAsked, JudgedAsked, MarksAsked, MarkedAsked, ClearAsked, ForcedMarked, TimesCleared, TimesJudged};

use hold_columns::{Columns, IMPLICIT_END, end_at, time};
use slices::words::at;
use spec::limits::STEPS;

// Is one of these files missing, and without a maker.
fn some_absent(fs: &[u32], made: &[u32], times: &[u64]) -> bool
    requires { AbsentAsked fs.now made.now times.now }
    ensures { result ≡ some_absent made.now times.now fs.now }
{
    for &f in fs {
        if at(made, f as usize) != 0 {
            continue;
        }
        if time(times, f as usize) == 0 {
            return true;
        }
    }
    false
}

// The files that the step's depfile lists.
fn listed_files<'a, 'b, 'c>(
    mentions: &'a [u32],
    ends: &'b [u32],
    listed: &'c [u32],
    s: usize,
) -> &'a [u32]
    requires { ListedAsked mentions.now ends.now listed.now s }
    ensures { result.now ≡ listed_part mentions.now ends.now listed.now s }
{
    let to = end_at(ends, s, IMPLICIT_END);
    let from = to - at(listed, s);
    &mentions[from..to]
}

// Does a depfile make the step stale.
fn is_forced(g: &Columns, missing: &[u32], listed: &[u32], times: &[u64], s: usize) -> bool
    requires { JudgedAsked g.now.mentions.now g.now.ends.now g.now.made.now missing.now listed.now times.now × (s < length missing.now) }
    ensures { result ≡ forced_in g.now.mentions.now g.now.ends.now g.now.made.now missing.now listed.now times.now s }
{
    if at(missing, s) == 1 {
        return true;
    }
    some_absent(listed_files(g.mentions, g.ends, listed, s), g.made, times)
}

// Marks the steps that a depfile makes stale.
fn mark_forced(g: &Columns, missing: &[u32], listed: &[u32], times: &[u64], marks: &mut [u32])
    requires { MarksAsked g.now.mentions.now g.now.ends.now g.now.made.now missing.now listed.now marks.old times.now }
    ensures { ForcedMarked g.now.mentions.now g.now.ends.now g.now.made.now missing.now listed.now times.now marks.new }
{
    for s in 0..missing.len() {
        let forced = is_forced(g, missing, listed, times, s);
        marks[s] = u32::from(forced);
    }
}

// Is the file's maker marked.
fn marked_maker(made: &[u32], marks: &[u32], f: usize) -> bool
    requires { MarkedAsked made.now marks.now f }
    ensures { result ≡ marked_maker made.now marks.now f }
{
    let m = at(made, f);
    if m == 0 {
        return false;
    }
    at(marks, m - 1) == 1
}

// Takes off the times of what marked steps make.
fn clear_times(made: &[u32], marks: &[u32], times: &mut [u64])
    requires { ClearAsked made.now marks.now times.old }
    ensures { TimesCleared made.now marks.now times.old times.new }
{
    for f in 0..made.len() {
        if marked_maker(made, marks, f) {
            times[f] = 0;
        }
    }
}

// The times by which steps are judged, in the place of the card's; `marks` is working space.
fn mark_then_clear(
    g: &Columns,
    missing: &[u32],
    listed: &[u32],
    marks: &mut [u32],
    times: &mut [u64],
)
    requires { MarksAsked g.now.mentions.now g.now.ends.now g.now.made.now missing.now listed.now marks.old times.old }
    ensures { Leaves (Spare marks.old marks.new) (TimesJudged g.now.mentions.now g.now.ends.now g.now.made.now missing.now listed.now times.old times.new) }
{
    mark_forced(g, missing, listed, times, marks);
    clear_times(g.made, marks, times);
}

// The same, with the working space.
pub fn judge_times(g: &Columns, missing: &[u32], listed: &[u32], times: &mut [u64])
    requires { JudgedAsked g.now.mentions.now g.now.ends.now g.now.made.now missing.now listed.now times.old }
    ensures { TimesJudged g.now.mentions.now g.now.ends.now g.now.made.now missing.now listed.now times.old times.new }
{
    let n = missing.len();
    let mut marks = [0u32; STEPS];
    mark_then_clear(g, missing, listed, &mut marks[..n], times);
}
