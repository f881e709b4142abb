// A reader over the manifest keeps the lent bytes and the place reached. Its functions leave the work to `line_at` and
// `put_line`, which take plain slices and values.
#![tactic(auto)]

ghost use Rattle.std.specs.Prelude.{◌≤◌, length, ◌≡◌};
ghost use Rattle.scan_classes.specs.Table.{classes};
ghost use Rattle.scan_cursor.specs.Spans.{LineHere};
ghost use Rattle.scan_cursor.specs.Found.{LinePutAsk, LinePut, FoundAsk, LinesFound};

use scan_lines::{LineEnd, line_end};

#[derive(Clone, Copy)]
pub struct Reader<'a> {
    pub manifest: &'a [u8],
    pub cursor: usize,
}

// Where a line starts and its bytes end, whether it is a comment, and where the next line starts. At the manifest's
// end it starts and ends there, and so does the next.
#[derive(Clone, Copy)]
pub struct LineBounds {
    pub start: usize,
    pub end: usize,
    pub comment: bool,
    pub next: usize,
}

// How many numbers the lines that were found take, where the line behind them starts, and whether there may be one,
// and room for it.
#[derive(Clone, Copy)]
pub struct Found {
    pub filled: usize,
    pub next: usize,
    pub more: bool,
}

// At a place of the manifest.
fn start<'a>(m: &'a [u8], from: usize) -> Reader<'a>
    ensures { (result.manifest ≡ m.entry) × (result.cursor ≡ from) }
{
    Reader {
        manifest: m,
        cursor: from,
    }
}

// Moved on to a place.
fn moved<'a>(r: Reader<'a>, place: usize) -> Reader<'a>
    ensures { (result.manifest ≡ r.entry.manifest) × (result.cursor ≡ place) }
{
    Reader {
        manifest: r.manifest,
        cursor: place,
    }
}

// The line that starts at the place reached.
fn next_line<'a>(t: &[u8; 256], r: Reader<'a>) -> LineBounds
    requires { (t.now ≡ classes) × (r.cursor ≤ length r.manifest.now) }
    ensures { LineHere r.entry.manifest.now r.entry.cursor result }
{
    line_at(t, r.manifest, r.cursor)
}

// The line that starts at a place of a slice.
fn line_at(t: &[u8; 256], m: &[u8], place: usize) -> LineBounds
    requires { (t.now ≡ classes) × (place ≤ length m.now) }
    ensures { LineHere m.now place result }
{
    if m.len() <= place {
        return LineBounds {
            start: place,
            end: place,
            comment: false,
            next: place,
        };
    }
    match line_end(t, m, place) {
        LineEnd::Ended(e) => LineBounds {
            start: place,
            end: e,
            comment: false,
            next: e + 1,
        },
        LineEnd::Comment(e) => LineBounds {
            start: place,
            end: e,
            comment: true,
            next: e + 1,
        },
        LineEnd::Open => LineBounds {
            start: place,
            end: m.len(),
            comment: false,
            next: m.len(),
        },
    }
}

// A line behind those that were found. A comment is passed over; it is asked for first, since comments are the
// shortest turns of the loop.
fn put_line(out: &mut [u32], filled: usize, s: LineBounds) -> Found
    requires { LinePutAsk out.old filled s }
    ensures { LinePut out.old filled s out.new result }
{
    if s.comment {
        return Found {
            filled,
            next: s.next,
            more: true,
        };
    }
    if s.next <= s.start {
        return Found {
            filled,
            next: s.start,
            more: false,
        };
    }
    out[filled] = s.start as u32;
    out[filled + 1] = s.end as u32;
    Found {
        filled: filled + 2,
        next: s.next,
        more: filled + 4 <= out.len(),
    }
}

// The lines from a place on that are no comments, as many as the lent numbers have room for: each is its start and its
// end. The reader goes from line to line.
pub fn lines_from(t: &[u8; 256], m: &[u8], from: usize, out: &mut [u32]) -> Found
    requires { FoundAsk t.now m.now from out.old }
    ensures { LinesFound m.now from out.old out.new result }
{
    let mut r = start(m, from);
    let mut f = Found {
        filled: 0,
        next: from,
        more: true,
    };
    while f.more {
        let s = next_line(t, r);
        f = put_line(out, f.filled, s);
        r = moved(r, f.next);
    }
    f
}
