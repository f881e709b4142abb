// The lines that the program writes, made in a lent buffer.
#![tactic(auto)]

ghost use Rattle.std.specs.Prelude.{◌∷◌, [], ◌++◌, ◌+◌, ◌*◌, ◌≤◌, ◌<◌, length, take};
ghost use Rattle.answers.specs.Numbers.{place_told};
ghost use Rattle.printing.specs.Lines.{decimal, worded, no_work, place_text, refused_text, refused_line, spaced, circle_output, head_of, step_line_of};
ghost use Rattle.printing.specs.Writes.{line_room, step_room, place_room, refused_room, PutsInLine, PutsUpTo, LeavesOutput};

use answers::Placed;
use slices::bytes::{copy_at, zero_bytes_from};

// Writes s from place `from` on, and gives the place behind it.
fn put(line: &mut [u8], from: usize, s: &[u8]) -> usize
    requires { from + length s.now ≤ length line.old }
    ensures { PutsInLine s.now line.old from line.new result }
{
    copy_at(line, from, s);
    from + s.len()
}

// The digits of n.
fn put_number(line: &mut [u8], from: usize, n: usize) -> usize
    requires { from + 20 ≤ length line.old }
    ensures { PutsUpTo 20 (decimal n) line.old from line.new result }
{
    let mut digits = [0u8; 20];
    let k = io::decimal(n as u64, &mut digits);
    put(line, from, &digits[..k])
}

// A word, and a number behind it.
fn put_worded(line: &mut [u8], from: usize, word: &[u8], n: usize) -> usize
    requires { from + (length word.now + 20) ≤ length line.old }
    ensures { PutsUpTo (length word.now + 20) (worded word.now n) line.old from line.new result }
{
    let behind = put(line, from, word);
    put_number(line, behind, n)
}

// Ends a line, and clears all that lies behind it.
fn end_line(line: &mut [u8], from: usize) -> usize
    requires { from < length line.old }
    ensures { LeavesOutput (take from line.old ++ (10 ∷ [])) line.old result line.new }
{
    line[from] = b'\n';
    zero_bytes_from(line, from + 1);
    from + 1
}

// "`no work` for an empty list"
pub fn say_no_work(line: &mut [u8]) -> usize
    requires { line_room ≤ length line.old }
    ensures { LeavesOutput no_work line.old result line.new }
{
    let behind = put(line, 0, b"no work");
    end_line(line, behind)
}

// A place: a number, or in a text the text's number, a colon and the offset.
fn put_place(line: &mut [u8], from: usize, p: Placed) -> usize
    requires { from + place_room ≤ length line.old }
    ensures { PutsUpTo place_room (place_text (place_told p)) line.old from line.new result }
{
    if p.text == 0 {
        return put_number(line, from, p.value);
    }
    let behind = put_number(line, from, p.text - 1);
    put_worded(line, behind, b":", p.value)
}

fn put_refused(line: &mut [u8], p: Placed) -> usize
    requires { refused_room ≤ length line.old }
    ensures { PutsUpTo refused_room (refused_text p.number (place_told p)) line.old 0 line.new result }
{
    let numbered = put_worded(line, 0, b"refused ", p.number);
    let behind = put(line, numbered, b" at ");
    put_place(line, behind, p)
}

// "`refused N at P` for a refusal"
pub fn say_refused(line: &mut [u8], p: Placed) -> usize
    requires { line_room ≤ length line.old }
    ensures { LeavesOutput (refused_line p.number (place_told p)) line.old result line.new }
{
    let behind = put_refused(line, p);
    end_line(line, behind)
}

// Each step's number, behind a space.
fn put_steps(line: &mut [u8], from: usize, steps: &[u32]) -> usize
    requires { from + 21 * length steps.now ≤ length line.old }
    ensures { PutsUpTo (21 * length steps.now) (spaced steps.now) line.old from line.new result }
{
    let mut behind = from;
    for &step in steps {
        behind = put_worded(line, behind, b" ", step as usize);
    }
    behind
}

// "after a 14 a line such as `circle 0 1`"
pub fn say_circle(line: &mut [u8], circle: &[u32]) -> usize
    requires { (line_room ≤ length line.old) × (length circle.now ≤ 512) }
    ensures { LeavesOutput (circle_output circle.now) line.old result line.new }
{
    let refused = put_refused(
        line,
        Placed {
            number: 14,
            text: 0,
            value: circle.len(),
        },
    );
    let named = put(line, refused, b"\ncircle");
    let behind = put_steps(line, named, circle);
    end_line(line, behind)
}

// The start of a step's line: its place in the list, and the list's length.
fn put_head(line: &mut [u8], from: usize, place: usize, count: usize) -> usize
    requires { from + 44 ≤ length line.old }
    ensures { PutsUpTo 44 (head_of place count) line.old from line.new result }
{
    let slash = put_worded(line, from, b"[", place);
    let bracket = put_worded(line, slash, b"/", count);
    put(line, bracket, b"] ")
}

// "a line for each listed step, with its place in the list, the list's length and its `command` text", from place
// `from` on.
pub fn put_step_line(line: &mut [u8], from: usize, place: usize, count: usize, text: &[u8]) -> usize
    requires { from + (length text.now + step_room) ≤ length line.old }
    ensures { PutsUpTo (length text.now + step_room) (step_line_of place count text.now) line.old from line.new result }
{
    let named = put_head(line, from, place, count);
    let behind = put(line, named, text);
    put(line, behind, b"\n")
}
