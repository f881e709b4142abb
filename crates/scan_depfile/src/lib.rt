// Make-style texts: the names that a text lists, one after another. A byte is gone over once.
#![tactic(auto)]

ghost use Rattle.std.specs.Prelude.{◌≡◌, ◌≤◌, ◌<◌, length, drop, get_or, set};
ghost use Rattle.depfile.specs.Depfile.{dollar_byte, backslash_byte, marks_of, blank_lines, behind_blank};
ghost use Rattle.scan_depfile.specs.Walk.{behind_gaps, rule_ends};
ghost use Rattle.scan_depfile.specs.Answers.{MarkAt, NameByteAt, ReadsMarks, PassesName, ColonAt, TargetIs, StartsList, NextPrerequisite};

// The mark at a place, and where the next one starts.
#[derive(Clone, Copy)]
pub enum FoundMark {
    Byte(u8, usize),
    Gap(usize),
    Line(usize),
    Lone,
}

// Where a name ends, and of how many bytes it is.
#[derive(Clone, Copy)]
pub struct NameEnd {
    pub next: usize,
    pub length: usize,
}

// The next name that is listed: where the next one starts, and of how many bytes this one is.
#[derive(Clone, Copy)]
pub enum DepfileName {
    Name(usize, usize),
    End,
    Malformed,
}

// The mark at a backslash, "a backslash before a space or `#` gives that byte".
fn backslash_at(s: &[u8], i: usize) -> FoundMark
    requires { (i < length s.now) × (get_or s.now i 0 ≡ backslash_byte) }
    ensures { MarkAt s.now i result }
{
    let next = i + 1;
    if s.len() <= next {
        return FoundMark::Byte(b'\\', next);
    }
    let c = s[next];
    let end = next + 1;
    if c == b'\n' {
        return FoundMark::Gap(end);
    }
    if c == b' ' || c == b'#' {
        return FoundMark::Byte(c, end);
    }
    FoundMark::Byte(b'\\', next)
}

// The mark at a `$`.
fn dollar_at(s: &[u8], i: usize) -> FoundMark
    requires { (i < length s.now) × (get_or s.now i 0 ≡ dollar_byte) }
    ensures { MarkAt s.now i result }
{
    let next = i + 1;
    if s.len() <= next {
        return FoundMark::Lone;
    }
    let c = s[next];
    if c == b'$' {
        let end = next + 1;
        return FoundMark::Byte(c, end);
    }
    FoundMark::Lone
}

fn mark_at(s: &[u8], i: usize) -> FoundMark
    requires { i < length s.now }
    ensures { MarkAt s.now i result }
{
    let b = s[i];
    let next = i + 1;
    // small letters, most bytes of a name: told first, since a long name takes half the time so
    if b'\\' < b {
        return FoundMark::Byte(b, next);
    }
    if b == b'\\' {
        return backslash_at(s, i);
    }
    if b == b'$' {
        return dollar_at(s, i);
    }
    if b == b' ' {
        return FoundMark::Gap(next);
    }
    if b == b'\n' {
        return FoundMark::Line(next);
    }
    FoundMark::Byte(b, next)
}

// Spaces and continuations.
fn skip_gaps(s: &[u8], from: usize) -> usize
    requires { from ≤ length s.now }
    ensures { ReadsMarks behind_gaps s.now from result }
{
    let mut i = from;
    while i < s.len() {
        let FoundMark::Gap(next) = mark_at(s, i) else {
            return i;
        };
        i = next;
    }
    i
}

// Blank lines, and the spaces before what follows them.
fn skip_blank(s: &[u8], from: usize) -> usize
    requires { from ≤ length s.now }
    ensures { ReadsMarks behind_blank s.now from result }
{
    let mut i = from;
    while i < s.len() {
        match mark_at(s, i) {
            FoundMark::Gap(next) | FoundMark::Line(next) => i = next,
            FoundMark::Byte(_, _) | FoundMark::Lone => return i,
        }
    }
    i
}

// The byte of a name at a place, and where the next one starts; None where the name is over. A target has no colon.
fn name_byte(s: &[u8], i: usize, target: bool) -> Option<(u8, usize)>
    ensures { NameByteAt target s.now i result }
{
    if s.len() <= i {
        return None;
    }
    let FoundMark::Byte(b, next) = mark_at(s, i) else {
        return None;
    };
    if target && b == b':' {
        return None;
    }
    Some((b, next))
}

// Stores a byte where there is room for it.
fn keep_byte(word: &mut [u8], n: usize, b: u8)
    ensures { word.new ≡ set word.old n b }
{
    if n < word.len() {
        word[n] = b;
    }
}

// The name at a place, written over `word`.
fn pass_name(s: &[u8], from: usize, word: &mut [u8]) -> NameEnd
    requires { from ≤ length s.now }
    ensures { PassesName s.now from word.old word.new result }
{
    let mut i = from;
    let mut n = 0;
    while let Some((b, next)) = name_byte(s, i, false) {
        keep_byte(word, n, b);
        n += 1;
        i = next;
    }
    NameEnd { next: i, length: n }
}

// Where the target at a place ends, if it is `out`.
fn target_is(s: &[u8], from: usize, out: &[u8]) -> Option<usize>
    requires { from ≤ length s.now }
    ensures { TargetIs s.now from out.now result }
{
    let mut i = from;
    for k in 0..out.len() {
        let (b, next) = name_byte(s, i, true)?;
        if b != out[k] {
            return None;
        }
        i = next;
    }
    match name_byte(s, i, true) {
        Some((_, _)) => None,
        None => Some(i),
    }
}

// The place behind the line's first colon, None if it has none.
fn behind_colon(s: &[u8], from: usize) -> Option<usize>
    requires { from ≤ length s.now }
    ensures { ColonAt s.now from result }
{
    let mut i = from;
    while i < s.len() {
        match mark_at(s, i) {
            FoundMark::Byte(b, next) => {
                if b == b':' {
                    return Some(next);
                }
                i = next;
            }
            FoundMark::Gap(next) => i = next,
            FoundMark::Line(_) | FoundMark::Lone => return None,
        }
    }
    None
}

// "A malformed text, one whose first target isn't the step's first output": None for those. Else the place behind the
// colon; the names from there on are `next_prerequisite`'s.
pub fn depfile_start(s: &[u8], out: &[u8]) -> Option<usize>
    ensures { StartsList s.now out.now result }
{
    if out.len() == 0 {
        return None;
    }
    let i = target_is(s, skip_blank(s, 0), out)?;
    behind_colon(s, i)
}

fn only_blank(s: &[u8], from: usize) -> bool
    requires { from ≤ length s.now }
    ensures { result ≡ blank_lines (marks_of (drop from s.now)) }
{
    skip_blank(s, from) == s.len()
}

// Whether the rule ends at a place.
fn rule_ends(s: &[u8], i: usize) -> bool
    ensures { result ≡ rule_ends (marks_of (drop i s.now)) }
{
    if s.len() <= i {
        return true;
    }
    match mark_at(s, i) {
        FoundMark::Line(next) => only_blank(s, next),
        _ => false,
    }
}

// The next name from a place behind the colon on, in `word` as far as there is room.
pub fn next_prerequisite(s: &[u8], from: usize, word: &mut [u8]) -> DepfileName
    requires { from ≤ length s.now }
    ensures { NextPrerequisite s.now from word.old word.new result }
{
    let name = pass_name(s, skip_gaps(s, from), word);
    let next = name.next;
    if name.length != 0 {
        return DepfileName::Name(next, name.length);
    }
    if rule_ends(s, next) {
        return DepfileName::End;
    }
    DepfileName::Malformed
}
