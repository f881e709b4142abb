// A text written into the lent buffer, one part after another. "expanded text over 8,192 bytes" (17): a place past
// that says that it is too long, and nothing more is written then.
// It is a number and no Option: PutsText, WritesDraft and WritesText speak of it, and a draft holds it as its place.
#![tactic(auto)]

ghost use Rattle.std.specs.Prelude.{List, [], ◌∷◌, ℕ, ◌<◌, ◌≡◌, length, get_or};
ghost use Rattle.spec.specs.Text.{quote, safe_byte, inside_quotes, quoted, joined_by, spelled_by};
ghost use Rattle.hold_names.specs.Table.{HoldsNames};
ghost use Rattle.text_buffer.specs.Puts.{OpenText, PutsText, FileNameAsk, FileNamesAsk, headed, names_in, to_close};

use hold_names::file_name;
use slices::bytes::copy_at;
use slices::words::at;
use spec::limits::TEXT;

// Writes s from a place on.
pub fn put_bytes(buffer: &mut [u8], place: usize, s: &[u8]) -> usize
    requires { OpenText buffer.old place }
    ensures { PutsText buffer.old place s.now buffer.new result }
{
    if TEXT - place < s.len() {
        return 8193;
    }
    copy_at(buffer, place, s);
    place + s.len()
}

pub fn put_byte(buffer: &mut [u8], place: usize, b: u8) -> usize
    requires { OpenText buffer.old place }
    ensures { PutsText buffer.old place (b ∷ []) buffer.new result }
{
    if TEXT <= place {
        return 8193;
    }
    buffer[place] = b;
    place + 1
}

// "letters, digits and `_ + - . /`": `-` to `9` lie side by side, with `.` and `/` between.
fn is_safe(b: u8) -> bool
    ensures { result ≡ safe_byte b }
{
    if 97 <= b {
        return b <= 122;
    }
    if b == 95 {
        return true;
    }
    if 65 <= b {
        return b <= 90;
    }
    if 45 <= b {
        return b <= 57;
    }
    b == 43
}

// Writes one byte of a name that stands in quotes, "each single quote inside written as quote, backslash, quote,
// quote".
fn put_inside(buffer: &mut [u8], place: usize, b: u8) -> usize
    requires { OpenText buffer.old place }
    ensures { PutsText buffer.old place (inside_quotes (b ∷ [])) buffer.new result }
{
    if b == b'\'' {
        return put_bytes(buffer, place, b"'\\''");
    }
    put_byte(buffer, place, b)
}

// Writes the bytes of a name that stands in quotes, and the quote behind them.
fn put_to_close(buffer: &mut [u8], place: usize, name: &[u8]) -> usize
    requires { OpenText buffer.old place }
    ensures { PutsText buffer.old place (to_close name.now) buffer.new result }
{
    let mut n = place;
    for &b in name {
        n = put_inside(buffer, n, b);
        if TEXT < n {
            return n;
        }
    }
    put_byte(buffer, n, b'\'')
}

// Writes a name in single quotes.
fn put_in_quotes(buffer: &mut [u8], place: usize, name: &[u8]) -> usize
    requires { OpenText buffer.old place }
    ensures { PutsText buffer.old place (quote ∷ to_close name.now) buffer.new result }
{
    let n = put_byte(buffer, place, b'\'');
    if TEXT < n {
        return n;
    }
    put_to_close(buffer, n, name)
}

// Writes a name: "a name of only letters, digits and `_ + - . /` stays; any other stands in single quotes". The bytes
// are told while they are copied, so that a name that stays is gone over once.
fn put_quoted(buffer: &mut [u8], place: usize, name: &[u8]) -> usize
    requires { OpenText buffer.old place }
    ensures { PutsText buffer.old place (quoted name.now) buffer.new result }
{
    if TEXT - place < name.len() {
        return 8193;
    }
    for i in 0..name.len() {
        let b = name[i];
        if !is_safe(b) {
            return put_in_quotes(buffer, place, name);
        }
        buffer[place + i] = b;
    }
    place + name.len()
}

// Writes a file's name: as it is in a text that no shell reads, else quoted.
fn put_name(
    names: &[u8],
    index: &[u32],
    count: usize,
    f: usize,
    plain: bool,
    buffer: &mut [u8],
    place: usize,
) -> usize
    requires { FileNameAsk names.now index.now count f buffer.old place }
    ensures { (files : List (List ℕ)) → HoldsNames names.now index.now count files → PutsText buffer.old place (spelled_by plain (get_or files f [])) buffer.new result }
{
    let name = file_name(names, index, count, f);
    if plain {
        return put_bytes(buffer, place, name);
    }
    put_quoted(buffer, place, name)
}

// Writes the name of file i of a list, behind the separator unless it is the first.
fn put_next(
    names: &[u8],
    index: &[u32],
    count: usize,
    fs: &[u32],
    i: usize,
    separator: u8,
    plain: bool,
    buffer: &mut [u8],
    place: usize,
) -> usize
    requires { (i < length fs.now) × FileNamesAsk names.now index.now count fs.now buffer.old place }
    ensures { (files : List (List ℕ)) → HoldsNames names.now index.now count files → PutsText buffer.old place (headed separator i (spelled_by plain (get_or files (get_or fs.now i 0) []))) buffer.new result }
{
    let f = at(fs, i);
    if i == 0 {
        return put_name(names, index, count, f, plain, buffer, place);
    }
    let n = put_byte(buffer, place, separator);
    if TEXT < n {
        return n;
    }
    put_name(names, index, count, f, plain, buffer, n)
}

// Writes the names of files, "joined by one space (`$in_newline` by a newline)", each plain or quoted.
pub fn put_files(
    names: &[u8],
    index: &[u32],
    count: usize,
    fs: &[u32],
    separator: u8,
    plain: bool,
    buffer: &mut [u8],
    place: usize,
) -> usize
    requires { FileNamesAsk names.now index.now count fs.now buffer.old place }
    ensures { (files : List (List ℕ)) → HoldsNames names.now index.now count files → PutsText buffer.old place (joined_by separator (names_in (spelled_by plain) files fs.now)) buffer.new result }
{
    let mut n = place;
    for i in 0..fs.len() {
        n = put_next(names, index, count, fs, i, separator, plain, buffer, n);
        if TEXT < n {
            return n;
        }
    }
    n
}
