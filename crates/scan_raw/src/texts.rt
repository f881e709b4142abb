// Raw paths and raw values, cut and checked before they are expanded.
ghost use Rattle.std.specs.Prelude.{◌≡◌, ◌≤◌, length, drop};
ghost use Rattle.spec.specs.Forms.{raw_value};
ghost use Rattle.scan_classes.specs.Table.{classes};
ghost use Rattle.scan_raw.specs.Texts.{PathAt, NextPathAt, ValueScanned};

use crate::NextPath;
use scan_dollars::past;
use scan_tokens::{gap, spaces};

// Where the path that starts here ends, with its dollars checked on the way; or where its first bad `$` stands.
pub fn path(t: &[u8; 256], s: &[u8], from: usize) -> Result<usize, usize>
    requires { (t.now ≡ classes) × (from ≤ length s.now) }
    ensures { PathAt s.now from result }
{
    let mut i = from;
    // A turn goes on by one byte or behind a `$` and its name, so that no `for` counts it.
    while i < s.len() {
        let k = scan_classes::class_in(t, s[i]);
        if k == scan_classes::DOLLAR {
            let Some(next) = past(t, s, i + 1) else {
                return Err(i);
            };
            i = next;
        } else {
            if k == scan_classes::SPACE || k == scan_classes::COLON || k == scan_classes::BAR {
                return Ok(i);
            }
            i += 1;
        }
    }
    Ok(i)
}

// The next path of a list, behind spaces and joins.
pub fn next_path(t: &[u8; 256], s: &[u8], from: usize) -> NextPath
    requires { (t.now ≡ classes) × (from ≤ length s.now) }
    ensures { NextPathAt s.now from result }
{
    let i = gap(s, from);
    if s.len() <= i || s[i] == b':' || s[i] == b'|' {
        return NextPath::Stop(i);
    }
    match path(t, s, i) {
        Ok(end) => NextPath::Path(i, end),
        Err(at) => NextPath::BadDollar(at),
    }
}

// The first bad `$` of a raw value.
pub fn bad_dollar(t: &[u8; 256], raw: &[u8]) -> Option<usize>
    requires { t.now ≡ classes }
    ensures { ValueScanned raw.now result }
{
    let mut i = 0;
    // A turn goes on by one byte or behind a `$` and its name, so that no `for` counts it.
    while i < raw.len() {
        if raw[i] == b'$' {
            let Some(next) = past(t, raw, i + 1) else {
                return Some(i);
            };
            i = next;
        } else {
            i += 1;
        }
    }
    None
}

// The value that starts behind its `=`: the caller's own bytes without their leading spaces.
pub fn raw_value<'a>(s: &'a [u8], from: usize) -> &'a [u8]
    requires { from ≤ length s.now }
    ensures { result.now ≡ raw_value (drop from s.now) }
{
    let i = spaces(s, from);
    &s[i..]
}
