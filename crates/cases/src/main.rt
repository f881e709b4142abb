// Puts every case of the folder cases/ to both asks, from the packed file that `pack` of second/ writes, and compares
// the answers and the whole of each lent buffer with what is expected.
#![tactic(auto)]

ghost use Rattle.std.specs.Prelude.{length};
ghost use Rattle.test_packed.specs.Parts.{PartsBehind};

use answer_places::locate;
use answers::of_reply;
use asks::{plan, text};
use spec::Wanted;
use std::fs::File;
use std::os::fd::AsRawFd;
use test_packed::{Ask, CaseHead, check, is_sound, read_ask, read_head, read_part};

// Standard output's descriptor.
const STDOUT_FILENO: i32 = 1;

// What the lent buffers hold before an ask: nothing that an ask would write there.
const BEFORE: u8 = 7;

// How the packed file goes on.
#[derive(Clone, Copy, PartialEq, Eq)]
enum Next {
    Case,
    End,
    CutOff,
}

// How many cases and asks there were, how many were answered otherwise than expected, and what follows.
#[derive(Clone, Copy)]
struct Tally {
    cases: u64,
    asks: u64,
    wrong: u64,
    next: Next,
}

// The plan, where the list has the length that the case asks for; `None` where the packed file is cut off.
fn ask_plan(
    fd: i32,
    answers: usize,
    bundle: &[u8],
    headers: &[u8],
    card: &[u8],
    targets: &[u8],
    list: &mut [u32],
    bytes: &mut [u8],
) -> Option<bool> {
    list.fill(u32::from(BEFORE));
    let n = locate(of_reply(plan(bundle, headers, card, targets, list)), bundle);
    check(fd, answers, n, true, list, bundle, bytes)
}

fn wanted(kind: usize) -> Wanted {
    if kind == 1 {
        return Wanted::Command;
    }
    Wanted::Description
}

// The text, where the buffer has the length that the case asks for.
fn ask_text(
    fd: i32,
    a: Ask,
    bundle: &[u8],
    list: &[u32],
    buf: &mut [u8],
    bytes: &mut [u8],
) -> Option<bool> {
    buf.fill(BEFORE);
    let n = locate(of_reply(text(bundle, a.step, wanted(a.kind), buf)), bundle);
    check(fd, a.answers, n, false, list, buf, bytes)
}

// The next ask of a case; `None` where the packed file is cut off, or asks for more room than the buffers have.
fn ask_next(
    fd: i32,
    bundle: &[u8],
    headers: &[u8],
    card: &[u8],
    targets: &[u8],
    list: &mut [u32],
    buf: &mut [u8],
    bytes: &mut [u8],
) -> Option<bool> {
    let a = read_ask(fd)?;
    let room = a.room;
    if a.kind == 0 {
        if list.len() < room {
            return None;
        }
        return ask_plan(
            fd,
            a.answers,
            bundle,
            headers,
            card,
            targets,
            &mut list[..room],
            bytes,
        );
    }
    if buf.len() < room {
        return None;
    }
    ask_text(fd, a, bundle, list, &mut buf[..room], bytes)
}

// Counts an answer, and names the case of a wrong one.
fn counted(t: Tally, right: bool, name: &[u8]) -> Tally {
    let asks = t.asks.saturating_add(1);
    if right {
        return Tally { asks, ..t };
    }
    io::write_all(STDOUT_FILENO, name);
    io::write_all(STDOUT_FILENO, b" is answered otherwise\n");
    let wrong = t.wrong.saturating_add(1);
    Tally { asks, wrong, ..t }
}

// Every ask of a case whose parts are read.
fn ask_all(
    fd: i32,
    h: CaseHead,
    t: Tally,
    input: &[u8],
    list: &mut [u32],
    buf: &mut [u8],
    bytes: &mut [u8],
) -> Tally
    requires { PartsBehind h (length input.now) }
{
    let a = h.name;
    let b = h.bundle;
    let c = h.headers;
    let d = h.card;
    let e = h.targets;
    let name = &input[..a];
    let bundle = &input[a..b];
    let headers = &input[b..c];
    let card = &input[c..d];
    let targets = &input[d..e];
    let mut tally = t;
    for _ in 0..h.asks {
        let Some(right) = ask_next(fd, bundle, headers, card, targets, list, buf, bytes) else {
            return Tally {
                next: Next::CutOff,
                ..tally
            };
        };
        tally = counted(tally, right, name);
    }
    tally
}

// The next case, whose parts are read into `input`; one with no bytes is the end.
fn case_next(
    fd: i32,
    t: Tally,
    input: &mut [u8],
    list: &mut [u32],
    buf: &mut [u8],
    bytes: &mut [u8],
) -> Tally {
    let cut_off = Tally {
        next: Next::CutOff,
        ..t
    };
    let Some(h) = read_head(fd) else {
        return cut_off;
    };
    if !is_sound(h) {
        return cut_off;
    }
    let end = h.targets;
    if end == 0 {
        return Tally {
            next: Next::End,
            ..t
        };
    }
    if !read_part(fd, input, end) {
        return cut_off;
    }
    let cases = t.cases.saturating_add(1);
    ask_all(fd, h, Tally { cases, ..t }, input, list, buf, bytes)
}

// Every case. The count of turns only shows that the loop ends.
fn run_all(fd: i32, input: &mut [u8], list: &mut [u32], buf: &mut [u8], bytes: &mut [u8]) -> Tally {
    let mut t = Tally {
        cases: 0,
        asks: 0,
        wrong: 0,
        next: Next::Case,
    };
    for _ in 0..u64::MAX {
        t = case_next(fd, t, input, list, buf, bytes);
        if t.next != Next::Case {
            break;
        }
    }
    t
}

fn report(t: Tally) {
    io::print_decimal(STDOUT_FILENO, t.cases);
    io::write_all(STDOUT_FILENO, b" cases, ");
    io::print_decimal(STDOUT_FILENO, t.asks);
    io::write_all(STDOUT_FILENO, b" asks, ");
    io::print_decimal(STDOUT_FILENO, t.wrong);
    io::write_all(STDOUT_FILENO, b" answered otherwise\n");
    if t.next == Next::CutOff {
        io::write_all(STDOUT_FILENO, b"the packed file is cut off\n");
    }
}

fn run(fd: i32) -> Tally {
    let mut input = io::large_buffer();
    let mut list = [0u32; 8192];
    let mut buf = [0u8; 16384];
    let mut bytes = [0u8; 16384];
    run_all(fd, &mut input, &mut list, &mut buf, &mut bytes)
}

fn main(rt: HostRuntime) {
    match File::open(&rt, "packed") {
        Ok(file) => report(run(file.as_raw_fd())),
        Err(e) => {
            let _ = eprintln!(rt; "packed: {e}");
        }
    }
}
