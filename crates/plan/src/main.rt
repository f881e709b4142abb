// The program: reads `build.ninja` and `times.card` by name and the targets from standard input, and writes the plan.
#![tactic(auto)]

ghost use Rattle.std.specs.Prelude.{◌≤◌};
ghost use Rattle.io.specs.Counts.{IsPrefixLen};
ghost use Rattle.report.specs.Begins.{AnswerRooms};
ghost use Rattle.report.specs.Held.{ToWrite};

use byte_order::equal;
use report::{begin, next_lines};
use report_bundle::lend_alone;
use report_output::Begun;
use spec::limits::{CARD, LIST, MANIFEST, TARGETS};
use std::env::{Env, FillError};
use std::fs::File;
use std::io::{Cursor, Error, Read, Write};
use std::rt::Files;

// How the program was started: by itself, by the script `plan`, or with arguments that it does not know.
#[derive(Clone, Copy)]
enum Started {
    Alone,
    ByScript,
    Wrongly,
}

// How a run ends: what there is to say is written, it is a refusal that is written, or not all of it could be written.
#[derive(Clone, Copy)]
enum Outcome {
    Done,
    Refused,
    Unwritten,
}

// A program of the kit has no exit status of its own: it tells the script which one to end with, on this descriptor.
const STATUS_FILENO: i32 = 3;

// Room for the bundle of `build.ninja` alone: 43 bytes beside its text, and of that one byte more than its limit.
const ALONE: usize = 43 + (MANIFEST + 1);

// Room for the texts of one reading: those of 512 steps with 512 bytes each.
const TEXTS: usize = 262144;

// Room for the lines of all these texts: a line has 45 bytes at most beside its text.
const OUT: usize = TEXTS + 45 * LIST;

// How much of the buffer for an error's text a count of bytes takes.
fn within(n: u64) -> usize
    ensures { result ≤ 128 }
{
    n.min(128) as usize
}

// The text of an error without its number, which std writes behind it.
fn words(text: &str) -> &str {
    match text.split_once(" (os error ") {
        Some((words, _)) => words,
        None => text,
    }
}

// A line on standard error: the warning, and why.
fn warn(rt: &impl Eprint, warning: &str, e: Error) {
    let mut text = Cursor::new([0u8; 128]);
    let _ = write!(text, "{e}");
    let n = within(text.position());
    let bytes = text.into_inner();
    let why = match str::from_utf8(&bytes[..n]) {
        Ok(text) => words(text),
        Err(_) => "",
    };
    let _ = eprintln!(rt; "{warning}: {why}");
}

// Reads until the buffer is full or the input ends. Where a read fails, standard error has why, after the warning
// given, and nothing counts as read.
fn read_all<E: Eprint, R: Read>(rt: &E, from: &mut R, warning: &str, buf: &mut [u8]) -> usize
    ensures { IsPrefixLen result buf.new }
{
    let mut done = 0;
    while done < buf.len() {
        let n = match from.read(&mut buf[done..]) {
            Ok(n) => n,
            Err(e) => {
                warn(rt, warning, e);
                return 0;
            }
        };
        if n == 0 {
            return done;
        }
        done += n;
    }
    done
}

// "A file that can't be opened is read as empty."
fn read_file<R: Files + Eprint>(rt: &R, path: &str, warning: &str, buf: &mut [u8]) -> usize
    ensures { IsPrefixLen result buf.new }
{
    match File::open(rt, path) {
        Ok(mut file) => read_all(rt, &mut file, warning, buf),
        Err(e) => {
            warn(rt, warning, e);
            0
        }
    }
}

// Writes all of it, or says on standard error why not.
fn write(rt: &(impl Print + Eprint), bytes: &[u8]) -> bool {
    match rt.write_all(bytes) {
        Ok(()) => true,
        Err(e) => {
            warn(rt, "plan: standard output", e);
            false
        }
    }
}

// The lines of all listed steps, in list order, as many at once as have their texts in the buffers, as long as they
// can be written; whether all were. The texts of the first `held` steps are in the buffers.
fn write_steps<R: Print + Eprint>(
    rt: &R,
    bundle: &[u8],
    steps: &[u32],
    held: usize,
    bytes: &mut [u8],
    ends: &mut [u32],
    out: &mut [u8],
) -> bool
    requires { ToWrite bundle.now steps.now bytes.old ends.old out.old 0 held }
{
    let mut place = 0;
    let mut held = held;
    while place < steps.len() {
        let made = next_lines(bundle, steps, place, held, bytes, ends, out);
        if !write(rt, &out[..made.bytes]) {
            return false;
        }
        place += made.steps;
        held = 0;
    }
    true
}

// The outcome of what was to be written.
fn written(is_written: bool, if_so: Outcome) -> Outcome {
    if is_written {
        return if_so;
    }
    Outcome::Unwritten
}

// Asks, and writes the whole output or the line of each step.
fn answer<R: Print + Eprint>(
    rt: &R,
    bundle: &[u8],
    card: &[u8],
    targets: &[u8],
    list: &mut [u32],
    bytes: &mut [u8],
    ends: &mut [u32],
    out: &mut [u8],
) -> Outcome
    requires { AnswerRooms list.old bytes.old ends.old out.old }
{
    match begin(bundle, card, targets, list, out, bytes, ends) {
        Begun::Whole(n) => written(write(rt, &out[..n]), Outcome::Done),
        Begun::Refusal(n) => written(write(rt, &out[..n]), Outcome::Refused),
        Begun::Steps(n, held) => written(
            write_steps(rt, bundle, &list[..n], held, bytes, ends, out),
            Outcome::Done,
        ),
    }
}

// The same for `build.ninja` alone, with the working space.
fn run<R: Print + Eprint>(rt: &R, manifest: &[u8], card: &[u8], targets: &[u8]) -> Outcome {
    let mut bundle = [0u8; ALONE];
    let mut list = [0u32; LIST];
    let mut bytes = [0u8; TEXTS];
    let mut ends = [0u32; LIST];
    let mut out = [0u8; OUT];
    let n = lend_alone(manifest, &mut bundle);
    answer(
        rt,
        &bundle[..n],
        card,
        targets,
        &mut list,
        &mut bytes,
        &mut ends,
        &mut out,
    )
}

// Reads what is asked, one byte more than each limit, so that what is over its limit is seen to be, and answers.
fn plan_here<R: Files + Input + Print + Eprint>(rt: &R) -> Outcome {
    let mut manifest = [0u8; MANIFEST + 1];
    let mut card = [0u8; CARD + 1];
    let mut targets = [0u8; TARGETS + 1];
    let m = read_file(
        rt,
        "build.ninja",
        "plan: build.ninja is read as empty",
        &mut manifest,
    );
    let c = read_file(
        rt,
        "times.card",
        "plan: times.card is read as empty",
        &mut card,
    );
    let mut input = rt.reader();
    let t = read_all(rt, &mut input, "plan: no targets are read", &mut targets);
    run(rt, &manifest[..m], &card[..c], &targets[..t])
}

// The script's word is the one argument that is known.
fn start(rt: &impl Env) -> Started {
    let mut word = [0u8; 16];
    let n = match rt.arg(1, &mut word) {
        Ok(n) => n,
        Err(FillError::NotPresent) => return Started::Alone,
        Err(FillError::TooLong) => return Started::Wrongly,
    };
    if !equal(&word[..n], b"--status") {
        return Started::Wrongly;
    }
    match rt.arg(2, &mut word) {
        Err(FillError::NotPresent) => Started::ByScript,
        _ => Started::Wrongly,
    }
}

// The exit status of an outcome, as a digit.
fn status(outcome: Outcome) -> u8 {
    match outcome {
        Outcome::Done => b'0',
        Outcome::Refused => b'1',
        Outcome::Unwritten => b'2',
    }
}

fn tell(outcome: Outcome) {
    let digit = [status(outcome)];
    io::write_all(STATUS_FILENO, &digit);
}

fn say_usage(rt: &impl Eprint) {
    let _ = eprintln!(rt; "usage: plan < TARGETS, in a folder with build.ninja and times.card");
}

fn main(rt: HostRuntime) {
    match start(&rt) {
        Started::Alone => {
            plan_here(&rt);
        }
        Started::ByScript => tell(plan_here(&rt)),
        Started::Wrongly => say_usage(&rt),
    }
}
