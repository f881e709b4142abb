// The runner's table as numbers in lent columns, and what is decided on them: the record that changes, and the answer.
#![tactic(auto)]

ghost use Rattle.std.specs.Prelude.{◌≡◌, ◌<◌, ◌+◌, ◌*◌, length, get_or};
ghost use Rattle.lists.specs.Lent.{Spare, Leaves};
ghost use Rattle.run_rules.specs.Runner.{next_start, finish_of};
ghost use Rattle.run_core.specs.Numbers.{jobs_in, given_in};
ghost use Rattle.run_core.specs.Passes.{start_answer};
ghost use Rattle.run_columns.specs.Columns.{stored_at, note_at, enough};
ghost use Rattle.run_columns.specs.Changes.{no_change, end_state, finish_change, finished_in};
ghost use Rattle.run_columns.specs.Fresh.{fresh_job, fresh_count, fresh_number};
ghost use Rattle.run_columns.specs.Chosen.{asked_gate, depths_of, asked_given, start_change, started_in};

use run_core::{finish_of, job_count, place_of, start_of};
use run_rules::Job;

// As many steps as a plan can have, and pools: the empty one, `console` and 64.
const STEPS: usize = 2048;

const POOLS: usize = 66;

// What becomes of the table, for C too: the place of the record that changes and the state it gets, or a place past
// the end and 0; the refusal's number, 0 for none; the step that is named, or the refusal's place.
#[repr(C)]
#[derive(Clone, Copy)]
pub struct Change {
    pub place: usize,
    pub state: u32,
    pub number: u32,
    pub step: u32,
}

// What a start is asked with, for C too: the job limit, the load gate, on or off with its highest load, and the
// reading.
// C hands the gate over as a flag and a number, so it is no `Option` here.
#[repr(C)]
#[derive(Clone, Copy)]
pub struct StartAsk {
    pub limit: u32,
    pub gated: bool,
    pub highest: f64,
    pub load: f64,
}

pub fn change_place(c: Change) -> usize
    ensures { result ≡ c.place }
{
    c.place
}

pub fn change_state(c: Change) -> u32
    ensures { result ≡ c.state }
{
    c.state
}

// An entry, 0 past the end.
fn number_at(a: &[u32], i: usize) -> u32
    ensures { result ≡ get_or a.now i 0 }
{
    a.get(i).copied().unwrap_or(0)
}

// ---- a fresh table
// How many records are made of n steps where there is room for m: all or none.
pub fn fresh_count(m: usize, n: usize) -> usize
    ensures { result ≡ fresh_count m n }
{
    if n <= m {
        return n;
    }
    0
}

// 1 where the table is too short for the list.
pub fn fresh_number(m: usize, n: usize) -> u32
    ensures { result ≡ fresh_number m n }
{
    if n <= m {
        return 0;
    }
    1
}

// Step i of the list waits, in its pool.
pub fn fresh_job(steps: &[u32], pools: &[u32], i: usize) -> Job
    ensures { result ≡ fresh_job steps.now pools.now i }
{
    Job {
        step: number_at(steps, i),
        pool: number_at(pools, i),
        state: 0,
    }
}

// ---- the table noted
// Are the columns long enough for n records.
fn are_enough(columns: &[u32], n: usize) -> bool
    ensures { result ≡ enough n columns.now }
{
    n <= columns.len() / 3
}

fn store(columns: &mut [u32], i: usize, j: Job)
    requires { i * 3 + 2 < length columns.old }
    ensures { columns.new ≡ stored_at columns.old i j }
{
    columns[i * 3] = j.step;
    columns[i * 3 + 1] = j.pool;
    columns[i * 3 + 2] = j.state;
}

// Notes record i of n in the columns, where they are long enough.
pub fn note(columns: &mut [u32], n: usize, i: usize, j: Job)
    requires { i < n }
    ensures { columns.new ≡ note_at n columns.old i j }
{
    if are_enough(columns, n) {
        store(columns, i, j);
    }
}

// No record changes: the place is past the end of n records.
fn no_change(n: usize, number: u32, step: u32) -> Change
    ensures { result ≡ no_change n number step }
{
    Change {
        place: n,
        state: 0,
        number,
        step,
    }
}

// ---- a finish
fn end_state(good: bool) -> u32
    ensures { result ≡ end_state good }
{
    if good {
        return 2;
    }
    3
}

// The record of the step that runs is done or failed. 27 where there is none.
fn finish_at(records: &[u32], step: u32, good: bool) -> Change
    ensures { result ≡ finish_change (jobs_in records.now) step good (finish_of (jobs_in records.now) step) }
{
    match finish_of(records, step) {
        Ok(()) => Change {
            place: place_of(records, step, 1),
            state: end_state(good),
            number: 0,
            step,
        },
        Err(s) => no_change(job_count(records), 27, s),
    }
}

// 1 where the columns are too short for the table.
pub fn finish_change(columns: &[u32], n: usize, step: u32, good: bool) -> Change
    ensures { result ≡ finished_in n columns.now step good }
{
    if are_enough(columns, n) {
        return finish_at(&columns[..n * 3], step, good);
    }
    no_change(n, 1, 0)
}

// ---- a start
fn gate_of(a: StartAsk) -> Option<f64>
    ensures { result ≡ asked_gate a }
{
    a.gated.then_some(a.highest)
}

// The depths, as far as there is room for them; 0 for the rest.
fn copy_depths(room: &mut [u32], depths: &[u32])
    ensures { room.new ≡ depths_of depths.now (length room.old) }
{
    for i in 0..room.len() {
        room[i] = number_at(depths, i);
    }
}

// The record that starts, or none.
fn start_made(records: &[u32], answer: Option<u32>) -> Change
    ensures { result ≡ start_change (jobs_in records.now) answer }
{
    match answer {
        None => no_change(job_count(records), 0, 0),
        Some(s) => Change {
            place: place_of(records, s, 0),
            state: 1,
            number: 0,
            step: s,
        },
    }
}

// With the depths in `room`, which is working space behind it, as `marks` is.
fn start_in(
    records: &[u32],
    links: &[u32],
    room: &mut [u32],
    marks: &mut [u32],
    a: StartAsk,
) -> Change
    ensures { Leaves (Spare room.old room.new × Spare marks.old marks.new) (result ≡ start_change (jobs_in records.now) (start_answer (next_start (given_in (length marks.old) links.now room.old a.limit (asked_gate a)) a.load (jobs_in records.now)))) }
{
    let gate = gate_of(a);
    let answer = start_of(records, links, room, marks, a.limit as usize, gate, a.load);
    start_made(records, answer)
}

// The same, with the working space.
fn start_at(records: &[u32], links: &[u32], depths: &[u32], a: StartAsk) -> Change
    ensures { result ≡ start_change (jobs_in records.now) (start_answer (next_start (asked_given links.now depths.now a) a.load (jobs_in records.now))) }
{
    let mut marks = [0u32; STEPS];
    let mut room = [0u32; POOLS];
    copy_depths(&mut room, depths);
    start_in(records, links, &mut room, &mut marks, a)
}

pub fn start_change(columns: &[u32], n: usize, links: &[u32], depths: &[u32], a: StartAsk) -> Change
    ensures { result ≡ started_in n columns.now links.now depths.now a }
{
    if are_enough(columns, n) {
        return start_at(&columns[..n * 3], links, depths, a);
    }
    no_change(n, 1, 0)
}
