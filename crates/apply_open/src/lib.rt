// A line that opens a file: the record that its path names, the scope that is entered for it, and the way back.
#![tactic(auto)]

ghost use Rattle.std.specs.Prelude.{◌≡◌, ◌≤◌};
ghost use Rattle.lists.specs.Lent.{Spare, Leaves};
ghost use Rattle.spec.specs.Limits.{max_written};
ghost use Rattle.spec.specs.Bundle.{bundle_names};
ghost use Rattle.scan_bundle.specs.Bundles.{LaidBundle, found_record};
ghost use Rattle.apply_open.specs.Opens.{open_over, OpenAsks, OpensPath, EnterAsks, Enters, LeaveAsks, LeavesScope};

use byte_order::equal;
use expand_dollars::expand;
use hold_bindings::{back_to, current_scope, enter_scope};
use hold_reading::Counts;
use scan_bundle::record_name;
use scan_numbers::word;
use spec::Refusal;
use spec::limits::{OPENED, PATH, WRITTEN};

// The counts with a file that is opened, and the scope to go back to.
#[derive(Clone, Copy)]
pub struct OpenedFile {
    pub counts: Counts,
    pub scope: usize,
}

// The record of that name, from the first one on: there are 64 at most.
fn find_named(b: &[u8], path: &[u8]) -> Option<usize>
    requires { LaidBundle b.now }
    ensures { result ≡ found_record path.now (bundle_names b.now) }
{
    let n = word(b, 0);
    for k in 0..n {
        if equal(path, record_name(b, k)) {
            return Some(k);
        }
    }
    None
}

// Whether a path of n bytes that opens a file is over a limit. It is no mention.
fn open_over(n: usize, c: Counts) -> bool
    requires { c.written ≤ max_written }
    ensures { result ≡ open_over n c }
{
    PATH < n || WRITTEN < c.written + n
}

// What the raw path of a line that starts at this place opens: the number of its record, with the number of the path's
// bytes; or its 8, its 9, then its 19. The word buffer is working space.
pub fn open_path(
    t: &[u8; 256],
    b: &[u8],
    raw: &[u8],
    texts: &[u8],
    bind: &[u32],
    word: &mut [u8],
    start: usize,
    c: Counts,
) -> Result<(usize, usize), Refusal>
    requires { OpenAsks t.now b.now raw.now texts.now bind.now word.old c }
    ensures { Leaves (Spare word.old word.new) (OpensPath (bundle_names b.now) texts.now bind.now c raw.now start result) }
{
    let n = expand(t, raw, texts, bind, c.entries, word);
    if n == 0 {
        return Err(Refusal::BadPath(start));
    }
    if open_over(n, c) {
        return Err(Refusal::OverLimit(start));
    }
    if OPENED <= c.opened {
        return Err(Refusal::BadOpen(start));
    }
    match find_named(b, &word[..n]) {
        Some(k) => Ok((k, n)),
        None => Err(Refusal::BadOpen(start)),
    }
}

// A file is opened by a path of n bytes, in a new scope or in the one that is read in.
pub fn enter(sub: bool, texts: &mut [u8], bind: &mut [u32], c: Counts, n: usize) -> OpenedFile
    requires { EnterAsks texts.old bind.old c n }
    ensures { Leaves ((Spare texts.old texts.new) × (Spare bind.old bind.new)) (Enters sub texts.old bind.old c n texts.new bind.new result) }
{
    let scope = current_scope(bind);
    let written = c.written + n;
    let opened = c.opened + 1;
    if sub {
        enter_scope(texts, bind, c.entries);
        return OpenedFile {
            counts: Counts {
                entries: c.entries + 1,
                written,
                opened,
                ..c
            },
            scope,
        };
    }
    OpenedFile {
        counts: Counts {
            written,
            opened,
            ..c
        },
        scope,
    }
}

// Back in the scope from which a file was opened.
pub fn leave(sub: bool, texts: &mut [u8], bind: &mut [u32], c: Counts, scope: usize) -> Counts
    requires { LeaveAsks sub scope texts.old bind.old c }
    ensures { Leaves ((Spare texts.old texts.new) × (Spare bind.old bind.new)) (LeavesScope sub scope texts.old bind.old c texts.new bind.new result) }
{
    if sub {
        back_to(texts, bind, c.entries, scope);
        return Counts {
            entries: c.entries + 1,
            ..c
        };
    }
    c
}
