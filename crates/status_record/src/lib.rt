// The status record by value: started, finished, and the clock moved to the time of printing. Nothing is kept
// anywhere else.
#![tactic(auto)]

ghost use Rattle.std.specs.Prelude.{◌≡◌, ◌≤◌};
ghost use Rattle.status_record.specs.Record.{taken_time, first_status, moved_to, counting, start_at, slid, held_times, current_of, finish_at, finish_noted, SoundStatus};

use status_rates::{as_float, rate_over, seconds};

// "one above 86,400,000 counts as that"
pub const DAY: u32 = 86400000;

#[derive(Clone, Copy)]
pub struct Status {
    pub total: u32,
    pub jobs: u32,
    pub started: u32,
    pub running: u32,
    pub finished: u32,
    // the last time, in milliseconds
    pub last: u32,
    // the same in seconds
    pub elapsed: f64,
    pub overall: Option<f64>,
    pub current: Option<f64>,
    // the last finish times, in milliseconds, the newest first
    pub window: [f64; 16],
}

// Before the first event.
pub fn first_status(total: u32, jobs: u32) -> Status
    ensures { result ≡ first_status total jobs }
{
    Status {
        total,
        jobs,
        started: 0,
        running: 0,
        finished: 0,
        last: 0,
        elapsed: 0.0,
        overall: None,
        current: None,
        window: [0.0; 16],
    }
}

// A time as it counts, after the last one.
fn taken(last: u32, t: u64) -> u32
    ensures { result ≡ taken_time last t }
{
    last.max(t.min(u64::from(DAY)) as u32)
}

// The clock moved to a time.
pub fn moved_to(s: Status, t: u64) -> Status
    ensures { result ≡ moved_to s t }
{
    let last = taken(s.last, t);
    let elapsed = seconds(as_float(last));
    let overall = rate_over(s.finished, elapsed);
    Status {
        last,
        elapsed,
        overall,
        ..s
    }
}

fn counting(s: Status, started: u32, running: u32, finished: u32) -> Status
    ensures { result ≡ counting s started running finished }
{
    Status {
        started,
        running,
        finished,
        ..s
    }
}

// A step starts. "A start past the total .. changes nothing"
pub fn start_at(s: Status, t: u64) -> Status
    requires { SoundStatus s }
    ensures { result ≡ start_at s t }
{
    if s.total <= s.started {
        return s;
    }
    moved_to(counting(s, s.started + 1, s.running + 1, s.finished), t)
}

// The window with one time more, the oldest dropped.
fn slid(w: [f64; 16], t: f64) -> [f64; 16]
    ensures { result ≡ slid w t }
{
    [
        t, w[0], w[1], w[2], w[3], w[4], w[5], w[6], w[7], w[8], w[9], w[10], w[11], w[12], w[13],
        w[14],
    ]
}

// How many of the window's times count.
fn held_times(jobs: u32, finished: u32) -> u32
    ensures { result ≡ held_times jobs finished }
{
    finished.min(jobs.min(16))
}

// The rate over the first n times of the window.
fn current_rate(w: [f64; 16], n: u32) -> Option<f64>
    requires { n ≤ 16 }
    ensures { result ≡ current_of w n }
{
    if n == 0 {
        return None;
    }
    let oldest = w[(n - 1) as usize];
    rate_over(n, seconds(w[0] - oldest))
}

// The window and its rate after a finish at the clock's time.
fn finish_noted(s: Status) -> Status
    ensures { result ≡ finish_noted s }
{
    let window = slid(s.window, as_float(s.last));
    let current = current_rate(window, held_times(s.jobs, s.finished));
    Status {
        current,
        window,
        ..s
    }
}

// A step finishes. "a finish with none running changes nothing"
pub fn finish_at(s: Status, t: u64) -> Status
    requires { SoundStatus s }
    ensures { result ≡ finish_at s t }
{
    if s.running == 0 {
        return s;
    }
    finish_noted(moved_to(counting(s, s.started, s.running - 1, s.finished + 1), t))
}
