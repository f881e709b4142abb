// The runner's table: a lent slice of step records, changed in place. Thin functions over what crate run_columns
// decides.
#![tactic(auto)]

ghost use Rattle.std.specs.Prelude.{◌≡◌, ◌<◌};
ghost use Rattle.run_columns.specs.Columns.{gathered};
ghost use Rattle.run_columns.specs.Changes.{turned_at};
ghost use Rattle.run_table.specs.Promises.{Fresh, Finished, Started};

use run_columns::{
    Change, StartAsk, change_place, change_state, finish_change, fresh_count, fresh_job,
    fresh_number, note, start_change,
};
use run_rules::Job;

// The fresh table of a list: its steps wait, each in its pool. 1 where the table is too short for the list, and it
// stays as it is.
pub fn fresh(jobs: &mut [Job], steps: &[u32], pools: &[u32]) -> u32
    ensures { Fresh jobs.old steps.now pools.now result jobs.new }
{
    let number = fresh_number(jobs.len(), steps.len());
    let n = fresh_count(jobs.len(), steps.len());
    for i in 0..n {
        jobs[i] = fresh_job(steps, pools, i);
    }
    number
}

// The table's numbers in the columns, where they are long enough: in each turn the record is read by value, and the
// columns are lent again.
pub fn gather(jobs: &[Job], columns: &mut [u32])
    ensures { columns.new ≡ gathered jobs.now columns.old }
{
    let n = jobs.len();
    for i in 0..n {
        let j = jobs[i];
        note(columns, n, i, j);
    }
}

// One record's state; nothing where the place is past the end.
pub fn put_state(jobs: &mut [Job], i: usize, state: u32)
    ensures { jobs.new ≡ turned_at jobs.old i state }
{
    if i < jobs.len() {
        jobs[i].state = state;
    }
}

// A finish of a step, good or failed, and its answer.
pub fn finish(jobs: &mut [Job], columns: &mut [u32], step: u32, good: bool) -> Change
    ensures { Finished jobs.old step good columns.old result jobs.new columns.new }
{
    gather(jobs, columns);
    let c = finish_change(columns, jobs.len(), step, good);
    let i = change_place(c);
    let state = change_state(c);
    put_state(jobs, i, state);
    c
}

// A start of the lowest step that may start, and its answer. `links` has the rows of the graph, `depths` those of the
// pools.
pub fn start(
    jobs: &mut [Job],
    columns: &mut [u32],
    links: &[u32],
    depths: &[u32],
    a: StartAsk,
) -> Change
    ensures { Started jobs.old links.now depths.now a columns.old result jobs.new columns.new }
{
    gather(jobs, columns);
    let c = start_change(columns, jobs.len(), links, depths, a);
    let i = change_place(c);
    let state = change_state(c);
    put_state(jobs, i, state);
    c
}
