// The runner on numbers: the table as three numbers a record, the graph as rows, passes over both, and the lowest
// step that may start.
#![tactic(auto)]

ghost use Rattle.std.specs.Prelude.{◌≡◌, ◌+◌, ◌*◌, ◌<◌, ltb, length, get_or};
ghost use Rattle.lists.specs.Lent.{Spare, Leaves};
ghost use Rattle.run_rules.specs.Runner.{heavy_load, running_jobs, failure_forbids, lowest_step, next_start, job_is, finish_of};
ghost use Rattle.run_rules.specs.Places.{job_place};
ghost use Rattle.run_core.specs.Numbers.{jobs_in, no_job, given_in};
ghost use Rattle.run_core.specs.Passes.{marked_job, pending_marks, turn_flag, turn_marks, rows_marks, taken_room, room_left, room_in, held_back, starts_shut, ready_job, start_answer, lower_start, looked_at};

use run_rules::Job;
use slices::words::zero_words_from;

// How many records the numbers hold.
pub fn job_count(c: &[u32]) -> usize
    ensures { result ≡ length (jobs_in c.now) }
{
    c.len() / 3
}

pub fn job_at(c: &[u32], i: usize) -> Job
    requires { i < length (jobs_in c.now) }
    ensures { result ≡ get_or (jobs_in c.now) i no_job }
{
    Job {
        step: c[i * 3],
        pool: c[i * 3 + 1],
        state: c[i * 3 + 2],
    }
}

// ---- what is upstream and not done
fn mark_job(j: Job, marks: &mut [u32])
    ensures { marks.new ≡ marked_job j marks.old }
{
    if j.state == 2 {
        return;
    }
    let s = j.step as usize;
    if s < marks.len() {
        marks[s] = 1;
    }
}

// Marks each listed step that is not done.
fn mark_pending(c: &[u32], marks: &mut [u32])
    ensures { marks.new ≡ pending_marks (jobs_in c.now) marks.old }
{
    let n = job_count(c);
    for i in 0..n {
        mark_job(job_at(c, i), marks);
    }
}

// What a number of a row makes of the row's flag: 1 where a step that it names is marked, 0 again at the row's end.
fn turn_flag(v: usize, flag: u32, marks: &[u32]) -> u32
    ensures { result ≡ turn_flag v flag marks.now }
{
    if v % 2 == 1 {
        return 0;
    }
    let m = v / 2;
    if marks.len() <= m {
        return flag;
    }
    if marks[m] == 0 {
        return flag;
    }
    1
}

// At the row's end its step is marked by the flag.
fn turn_marks(v: usize, flag: u32, marks: &mut [u32])
    requires { flag < 2 }
    ensures { marks.new ≡ turn_marks v flag marks.old }
{
    if v % 2 == 0 {
        return;
    }
    let s = v / 2;
    if s < marks.len() {
        marks[s] = marks[s] % 2 + flag * 2;
    }
}

// The marks after all rows.
fn pass_rows(graph: &[u32], marks: &mut [u32])
    ensures { marks.new ≡ rows_marks graph.now 0 marks.old }
{
    let mut flag = 0u32;
    for &link in graph {
        let v = link as usize;
        let next = turn_flag(v, flag, marks);
        turn_marks(v, flag, marks);
        flag = next;
    }
}

// ---- what room the pools have
fn take_room(j: Job, room: &mut [u32])
    ensures { room.new ≡ taken_room j room.old }
{
    if j.state != 1 {
        return;
    }
    let p = j.pool as usize;
    if p < room.len() && 0 < room[p] {
        room[p] -= 1;
    }
}

// From the depths to what is left of them.
fn leave_room(c: &[u32], room: &mut [u32])
    ensures { room.new ≡ room_left (jobs_in c.now) room.old }
{
    let n = job_count(c);
    for i in 0..n {
        take_room(job_at(c, i), room);
    }
}

// ---- jobs, load and failures
fn count_running(c: &[u32]) -> usize
    ensures { result ≡ running_jobs (jobs_in c.now) }
{
    let n = job_count(c);
    let mut r = 0;
    for i in 0..n {
        let j = job_at(c, i);
        if j.state == 1 {
            r += 1;
        }
    }
    r
}

fn any_failed(c: &[u32]) -> bool
    ensures { result ≡ failure_forbids (jobs_in c.now) }
{
    let n = job_count(c);
    for i in 0..n {
        let j = job_at(c, i);
        if j.state == 3 {
            return true;
        }
    }
    false
}

// "a reading is above it or no number"
pub fn is_heavy(gate: Option<f64>, load: f64) -> bool
    ensures { result ≡ heavy_load gate load }
{
    match gate {
        None => false,
        Some(highest) => load.is_nan() || highest < load,
    }
}

// "a step starts only when none runs": with r running.
fn held_back(r: usize, gate: Option<f64>, load: f64) -> bool
    ensures { result ≡ held_back r gate load }
{
    if r == 0 {
        return false;
    }
    is_heavy(gate, load)
}

// The job limit, the load or a failure forbids every start.
fn starts_shut(c: &[u32], limit: usize, gate: Option<f64>, load: f64) -> bool
    ensures { result ≡ starts_shut limit gate load (jobs_in c.now) }
{
    let r = count_running(c);
    if limit <= r {
        return true;
    }
    if held_back(r, gate, load) {
        return true;
    }
    any_failed(c)
}

// ---- the start
fn is_clear(marks: &[u32], s: usize) -> bool
    ensures { result ≡ ltb (get_or marks.now s 0) 2 }
{
    if marks.len() <= s {
        return true;
    }
    marks[s] < 2
}

fn has_room(room: &[u32], p: usize) -> bool
    ensures { result ≡ room_in room.now p }
{
    if p == 0 {
        return true;
    }
    if room.len() <= p {
        return false;
    }
    0 < room[p]
}

fn is_ready(j: Job, marks: &[u32], room: &[u32]) -> bool
    ensures { result ≡ ready_job marks.now room.now j }
{
    if j.state != 0 {
        return false;
    }
    if !is_clear(marks, j.step as usize) {
        return false;
    }
    has_room(room, j.pool as usize)
}

fn lower_start(step: u32, best: Option<u32>) -> Option<u32>
    ensures { result ≡ lower_start step best }
{
    match best {
        None => Some(step),
        Some(s) => Some(step.min(s)),
    }
}

fn look_at(j: Job, marks: &[u32], room: &[u32], best: Option<u32>) -> Option<u32>
    ensures { result ≡ looked_at marks.now room.now j best }
{
    if is_ready(j, marks, room) {
        return lower_start(j.step, best);
    }
    best
}

// The lowest step that is ready, from the last record to the first.
fn lowest_ready(c: &[u32], marks: &[u32], room: &[u32]) -> Option<u32>
    ensures { result ≡ start_answer (lowest_step (ready_job marks.now room.now) (jobs_in c.now)) }
{
    let mut best = None;
    let n = job_count(c);
    for i in (0..n).rev() {
        best = look_at(job_at(c, i), marks, room, best);
    }
    best
}

// The step to start next at a load reading. `room` has the depths by pool; it and `marks`, with a place for each
// step, are working space behind it.
pub fn start_of(
    c: &[u32],
    graph: &[u32],
    room: &mut [u32],
    marks: &mut [u32],
    limit: usize,
    gate: Option<f64>,
    load: f64,
) -> Option<u32>
    ensures { Leaves (Spare room.old room.new × Spare marks.old marks.new) (result ≡ start_answer (next_start (given_in (length marks.old) graph.now room.old limit gate) load (jobs_in c.now))) }
{
    if starts_shut(c, limit, gate, load) {
        return None;
    }
    zero_words_from(marks, 0);
    mark_pending(c, marks);
    pass_rows(graph, marks);
    leave_room(c, room);
    lowest_ready(c, marks, room)
}

// ---- places
fn is_job(j: Job, s: u32, state: u32) -> bool
    ensures { result ≡ job_is s state j }
{
    if j.step != s {
        return false;
    }
    j.state == state
}

// Where the record stands that a start or a finish of step s changes, or the number of records.
// C reads the place as a number (`run_columns::Change`): no `Option`.
pub fn place_of(c: &[u32], s: u32, state: u32) -> usize
    ensures { result ≡ job_place s state (jobs_in c.now) }
{
    let n = job_count(c);
    for i in 0..n {
        if is_job(job_at(c, i), s, state) {
            return i;
        }
    }
    n
}

pub fn finish_of(c: &[u32], s: u32) -> Result<(), u32>
    ensures { result ≡ finish_of (jobs_in c.now) s }
{
    if place_of(c, s, 1) < job_count(c) {
        return Ok(());
    }
    Err(s)
}
