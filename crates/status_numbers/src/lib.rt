// The status record as numbers, for callers in C and Rust, and each event and the line on it. Any numbers are taken:
// those that no sequence of events gives count as the nearest that one can give.
#![tactic(auto)]

ghost use Rattle.std.specs.Prelude.{◌≡◌, length};
ghost use Rattle.answers.specs.Numbers.{said};
ghost use Rattle.status_record.specs.Record.{first_status, moved_to, start_at, finish_at};
ghost use Rattle.status_line.specs.LineAsk.{line_outcome, line_says, line_refusal_says, StatusLineMeets};
ghost use Rattle.status_numbers.specs.Numbers.{rate_held, rate_flag, rate_number, status_held, record_of};

use answers::Numbers;
use status_line::{LineRefusal, line};
use status_record::{DAY, Status, finish_at, first_status, moved_to, start_at};

// A rate is known where its flag is not 0.
#[repr(C)]
#[derive(Clone, Copy)]
pub struct StatusRecord {
    pub total: u32,
    pub jobs: u32,
    pub started: u32,
    pub finished: u32,
    pub last: u32,
    // the overall rate's flag, and the current rate's
    pub timed: u32,
    pub paced: u32,
    pub elapsed: f64,
    pub overall: f64,
    pub current: f64,
    pub window: [f64; 16],
}

fn rate_held(known: u32, rate: f64) -> Option<f64>
    ensures { result ≡ rate_held known rate }
{
    (known != 0).then_some(rate)
}

fn rate_flag(r: Option<f64>) -> u32
    ensures { result ≡ rate_flag r }
{
    match r {
        None => 0,
        Some(_) => 1,
    }
}

fn rate_number(r: Option<f64>) -> f64
    ensures { result ≡ rate_number r }
{
    r.unwrap_or(0.0)
}

// The status that a record stands for.
fn status_held(r: StatusRecord) -> Status
    ensures { result ≡ status_held r }
{
    let started = r.started.min(r.total);
    let finished = r.finished.min(started);
    let running = started - finished;
    // by a variable: the prover does not follow an array from field to field
    let window = r.window;
    Status {
        total: r.total,
        jobs: r.jobs,
        started,
        running,
        finished,
        last: r.last.min(DAY),
        elapsed: r.elapsed,
        overall: rate_held(r.timed, r.overall),
        current: rate_held(r.paced, r.current),
        window,
    }
}

fn record_of(s: Status) -> StatusRecord
    ensures { result ≡ record_of s }
{
    // by a variable: the prover does not follow an array from field to field
    let window = s.window;
    StatusRecord {
        total: s.total,
        jobs: s.jobs,
        started: s.started,
        finished: s.finished,
        last: s.last,
        timed: rate_flag(s.overall),
        paced: rate_flag(s.current),
        elapsed: s.elapsed,
        overall: rate_number(s.overall),
        current: rate_number(s.current),
        window,
    }
}

pub fn first_record(total: u32, jobs: u32) -> StatusRecord
    ensures { result ≡ record_of (first_status total jobs) }
{
    record_of(first_status(total, jobs))
}

pub fn record_started(r: StatusRecord, ms: u64) -> StatusRecord
    ensures { result ≡ record_of (start_at (status_held r) ms) }
{
    record_of(start_at(status_held(r), ms))
}

pub fn record_finished(r: StatusRecord, ms: u64) -> StatusRecord
    ensures { result ≡ record_of (finish_at (status_held r) ms) }
{
    record_of(finish_at(status_held(r), ms))
}

pub fn record_moved(r: StatusRecord, ms: u64) -> StatusRecord
    ensures { result ≡ record_of (moved_to (status_held r) ms) }
{
    record_of(moved_to(status_held(r), ms))
}

fn of_line_refusal(r: LineRefusal) -> Numbers
    ensures { said result ≡ line_refusal_says r }
{
    match r {
        LineRefusal::ShortBuffer => Numbers {
            number: 1,
            text: false,
            value: 0,
        },
        LineRefusal::BadPlaceholder(p) => Numbers {
            number: 21,
            text: false,
            value: p,
        },
        LineRefusal::LongLine => Numbers {
            number: 17,
            text: false,
            value: 0,
        },
    }
}

fn of_line(a: Result<usize, LineRefusal>) -> Numbers
    ensures { said result ≡ line_says a }
{
    match a {
        Ok(n) => Numbers {
            number: 0,
            text: false,
            value: n,
        },
        Err(r) => of_line_refusal(r),
    }
}

pub fn record_line(r: StatusRecord, format: &[u8], buffer: &mut [u8]) -> Numbers
    ensures { StatusLineMeets (line_outcome (status_held r) format.now (length buffer.old)) buffer.old (said result) buffer.new }
{
    of_line(line(status_held(r), format, buffer))
}
