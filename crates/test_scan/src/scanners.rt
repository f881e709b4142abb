// The scanners over a line or a manifest. A start past the end is the end.
ghost use Rattle.std.specs.Prelude.{◌≡◌, ◌≤◌, min, length, drop};
ghost use Rattle.lists.specs.Runs.{after_run};
ghost use Rattle.spec.specs.Bytes.{newline, class_of};
ghost use Rattle.spec.specs.Dollars.{bad_dollar};
ghost use Rattle.spec.specs.Lines.{is_space};
ghost use Rattle.spec.specs.Forms.{gap, after_name, rule_word, key_word, paths};
ghost use Rattle.spec.specs.Manifest.{bad_byte};
ghost use Rattle.scan_classes.specs.Table.{classes};
ghost use Rattle.test_scan.specs.Scanners.{or_none, place_after, dollar_number, path_number, paths_number, word_number, end_number, kind_number};

use scan_keywords::Word;
use scan_lines::{LineEnd, LineKind};
use scan_raw::NextPath;

// The class of a byte.
#[unsafe(no_mangle)]
pub extern "C" fn kestrenyo_class(b: u8) -> u8
    ensures { result ≡ class_of b }
{
    let t = scan_classes::table();
    scan_classes::class_in(&t, b)
}

fn start_in(s: &[u8], from: usize) -> usize
    ensures { result ≡ min from (length s.now) }
{
    from.min(s.len())
}

// Where a run of spaces ends.
#[unsafe(no_mangle)]
pub extern "C" fn kestrenyo_spaces(s: &[u8], from: usize) -> usize
    ensures { result ≡ place_after (after_run is_space) s.now from }
{
    let i = start_in(s, from);
    scan_tokens::spaces(s, i)
}

// Where spaces and joins end.
#[unsafe(no_mangle)]
pub extern "C" fn kestrenyo_gap(s: &[u8], from: usize) -> usize
    ensures { result ≡ place_after gap s.now from }
{
    let i = start_in(s, from);
    scan_tokens::gap(s, i)
}

// Where a name ends.
#[unsafe(no_mangle)]
pub extern "C" fn kestrenyo_name(s: &[u8], from: usize) -> usize
    ensures { result ≡ place_after after_name s.now from }
{
    let t = scan_classes::table();
    let i = start_in(s, from);
    scan_tokens::name_end(&t, s, i)
}

// What the `$` in front of `from` begins, passed.
#[unsafe(no_mangle)]
pub extern "C" fn kestrenyo_dollar(s: &[u8], from: usize) -> usize
    ensures { result ≡ dollar_number s.now from }
{
    let t = scan_classes::table();
    let i = start_in(s, from);
    match scan_dollars::past(&t, s, i) {
        Some(next) => next + 1,
        None => 0,
    }
}

// One path.
#[unsafe(no_mangle)]
pub extern "C" fn kestrenyo_path(s: &[u8], from: usize) -> usize
    ensures { result ≡ path_number s.now from }
{
    let t = scan_classes::table();
    let i = start_in(s, from);
    match scan_raw::texts::path(&t, s, i) {
        Ok(end) => 2 * end,
        Err(at) => 2 * at + 1,
    }
}

fn paths_from(t: &[u8; 256], s: &[u8], from: usize) -> usize
    requires { (t.now ≡ classes) × (from ≤ length s.now) }
    ensures { result ≡ paths_number s.now (paths (drop from s.now)) }
{
    let mut i = from;
    // no `while let`: the two answers that end the list say different things
    loop {
        match scan_raw::texts::next_path(t, s, i) {
            NextPath::Path(_, end) => {
                i = end;
            }
            NextPath::Stop(end) => {
                return 2 * end;
            }
            NextPath::BadDollar(at) => {
                return 2 * at + 1;
            }
        }
    }
}

// A list of paths.
#[unsafe(no_mangle)]
pub extern "C" fn kestrenyo_paths(s: &[u8], from: usize) -> usize
    ensures { result ≡ paths_number s.now (paths (drop from s.now)) }
{
    let t = scan_classes::table();
    let i = start_in(s, from);
    paths_from(&t, s, i)
}

// The first bad `$` of a raw value.
#[unsafe(no_mangle)]
pub extern "C" fn kestrenyo_bad_dollar(raw: &[u8]) -> usize
    ensures { result ≡ or_none (bad_dollar raw.now) }
{
    let t = scan_classes::table();
    match scan_raw::texts::bad_dollar(&t, raw) {
        None => 0,
        Some(p) => p + 1,
    }
}

// A word where a rule is named.
#[unsafe(no_mangle)]
pub extern "C" fn kestrenyo_rule_word(w: &[u8]) -> u8
    ensures { result ≡ word_number (rule_word w.now) }
{
    match scan_keywords::rule_word(w) {
        Word::Name => 0,
        Word::NoForm => 4,
        Word::NotYet => 6,
    }
}

// A word where a key is named.
#[unsafe(no_mangle)]
pub extern "C" fn kestrenyo_key_word(w: &[u8]) -> u8
    ensures { result ≡ word_number (key_word w.now) }
{
    match scan_keywords::key_word(w) {
        Word::Name => 0,
        Word::NoForm => 4,
        Word::NotYet => 6,
    }
}

// Where the line after the one at `from` starts.
#[unsafe(no_mangle)]
pub extern "C" fn kestrenyo_line_end(m: &[u8], from: usize) -> usize
    ensures { result ≡ end_number m.now from }
{
    let t = scan_classes::table();
    let i = start_in(m, from);
    match scan_lines::line_end(&t, m, i) {
        LineEnd::Ended(end) | LineEnd::Comment(end) => end + 1,
        LineEnd::Open => 0,
    }
}

// The kind of a line, given without the newline that ends it.
#[unsafe(no_mangle)]
pub extern "C" fn kestrenyo_line_kind(s: &[u8]) -> u8
    ensures { result ≡ kind_number s.now }
{
    let t = scan_classes::table();
    match scan_lines::line_kind(&t, s) {
        LineKind::Comment => 0,
        LineKind::Blank => 1,
        LineKind::Indented => 2,
        LineKind::Statement => 3,
    }
}

// The check of a manifest's bytes.
#[unsafe(no_mangle)]
pub extern "C" fn kestrenyo_bad_byte(m: &[u8]) -> usize
    ensures { result ≡ or_none (bad_byte newline 0 m.now) }
{
    match scan_raw::manifest::bad_byte(m) {
        None => 0,
        Some(p) => p + 1,
    }
}
