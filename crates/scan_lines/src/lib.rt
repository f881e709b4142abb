// Where a line ends, and what kind of line it is.
#![tactic(auto)]

ghost use Rattle.std.specs.Prelude.{◌≡◌, ◌≤◌, length};
ghost use Rattle.spec.specs.Lines.{comment, body};
ghost use Rattle.scan_classes.specs.Table.{classes};
ghost use Rattle.scan_lines.specs.Endings.{EndAt, LineAt, kind_of};

use scan_classes::{HASH, class_in};
use scan_tokens::spaces;

// Where the newline that ends a line stands, if the manifest does not end inside that line. A comment is told apart.
#[derive(Clone, Copy)]
pub enum LineEnd {
    Ended(usize),
    Comment(usize),
    Open,
}

#[derive(Clone, Copy)]
pub enum LineKind {
    Comment,
    Blank,
    Indented,
    Statement,
}

// A comment joins nothing.
fn comment_end(m: &[u8], from: usize) -> LineEnd
    requires { from ≤ length m.now }
    ensures { EndAt comment m.now from result }
{
    for i in from..m.len() {
        if m[i] == b'\n' {
            return LineEnd::Comment(i);
        }
    }
    LineEnd::Open
}

// A `$` takes the next byte along, a newline too.
fn body_end(m: &[u8], from: usize) -> LineEnd
    requires { from ≤ length m.now }
    ensures { EndAt body m.now from result }
{
    let mut i = from;
    // A turn goes on by one byte or by two, so that no `for` counts it.
    while i < m.len() {
        let b = m[i];
        if b == b'\n' {
            return LineEnd::Ended(i);
        }
        if b == b'$' {
            if m.len() <= i + 1 {
                return LineEnd::Open;
            }
            i += 2;
        } else {
            i += 1;
        }
    }
    LineEnd::Open
}

// The end of the line that starts at `from`.
pub fn line_end(t: &[u8; 256], m: &[u8], from: usize) -> LineEnd
    requires { (t.now ≡ classes) × (from ≤ length m.now) }
    ensures { LineAt m.now from result }
{
    let i = spaces(m, from);
    if m.len() <= i {
        return LineEnd::Open;
    }
    if class_in(t, m[i]) == HASH {
        return comment_end(m, i);
    }
    body_end(m, i)
}

// The kind of a line, given without the newline that ends it.
pub fn line_kind(t: &[u8; 256], s: &[u8]) -> LineKind
    requires { t.now ≡ classes }
    ensures { result ≡ kind_of s.now }
{
    let i = spaces(s, 0);
    if s.len() <= i {
        return LineKind::Blank;
    }
    if class_in(t, s[i]) == HASH {
        return LineKind::Comment;
    }
    if s[0] == b' ' {
        return LineKind::Indented;
    }
    LineKind::Statement
}
