// "Print the manual's status placeholders": a format and the status record give a line in the lent buffer, or a
// refusal.
#![tactic(auto)]

ghost use Rattle.std.specs.Prelude.{◌≡◌, false, ◌-◌, length};
ghost use Rattle.text_buffer.specs.Puts.{OpenText, PutsText};
ghost use Rattle.status_line.specs.Pieces.{percent_of, digit_of, decimal_of, tenths_text, seconds_text, rate_piece, piece_of, piece_text};
ghost use Rattle.status_line.specs.Line.{known_key, wrong_key, next_state, wrong_from, element_text, line_from};
ghost use Rattle.status_line.specs.LineAsk.{fitting_line, line_outcome, line_says, StatusLineMeets};

use slices::bytes::zero_bytes_from;
use spec::limits::TEXT;
use status_rates::tenths;
use status_record::Status;
use text_buffer::{put_byte, put_bytes};

// What a placeholder is written as.
#[derive(Clone, Copy)]
pub enum StatusPiece {
    Number(u64),
    Tenths(u64),
    Seconds(u64),
    Byte(u8),
}

#[derive(Clone, Copy)]
pub enum LineRefusal {
    ShortBuffer,
    BadPlaceholder(usize),
    LongLine,
}

// "`%p` is 100 times started over total, cut downwards, without a sign, 100 for a total of 0"
fn percent(started: u32, total: u32) -> u64
    ensures { result ≡ percent_of started total }
{
    if total == 0 {
        return 100;
    }
    u64::from(started) * 100 / u64::from(total)
}

// Steps that have not started.
fn waiting(started: u32, total: u32) -> u64
    ensures { result ≡ total - started }
{
    u64::from(total.saturating_sub(started))
}

// "unknown, printed `?`"
fn rate_piece(r: Option<f64>) -> StatusPiece
    ensures { result ≡ rate_piece r }
{
    match r {
        Some(x) => StatusPiece::Tenths(u64::from(tenths(x))),
        None => StatusPiece::Byte(b'?'),
    }
}

// What a placeholder stands for, by the byte behind its `%`.
#[tactic(auto, unfolding(crate::specs::Pieces::piece_of))]
fn piece_at(s: Status, key: u8) -> StatusPiece
    ensures { result ≡ piece_of s key }
{
    match key {
        b's' => StatusPiece::Number(u64::from(s.started)),
        b't' => StatusPiece::Number(u64::from(s.total)),
        b'p' => StatusPiece::Number(percent(s.started, s.total)),
        b'r' => StatusPiece::Number(u64::from(s.running)),
        b'u' => StatusPiece::Number(waiting(s.started, s.total)),
        b'f' => StatusPiece::Number(u64::from(s.finished)),
        b'o' => rate_piece(s.overall),
        b'c' => rate_piece(s.current),
        b'e' => StatusPiece::Seconds(u64::from(s.last)),
        _ => StatusPiece::Byte(b'%'),
    }
}

fn digit(n: u64) -> u8
    ensures { result ≡ digit_of n }
{
    (n % 10) as u8 + 48
}

// A number in decimal.
fn put_decimal(n: u64, buffer: &mut [u8], place: usize) -> usize
    requires { OpenText buffer.old place }
    ensures { PutsText buffer.old place (decimal_of n) buffer.new result }
{
    if n < 10 {
        return put_byte(buffer, place, digit(n));
    }
    let next = put_decimal(n / 10, buffer, place);
    if TEXT < next {
        return next;
    }
    put_byte(buffer, next, digit(n))
}

// "printed in tenths"
fn put_tenths(n: u64, buffer: &mut [u8], place: usize) -> usize
    requires { OpenText buffer.old place }
    ensures { PutsText buffer.old place (tenths_text n) buffer.new result }
{
    let next = put_decimal(n / 10, buffer, place);
    if TEXT < next {
        return next;
    }
    let tail = [b'.', digit(n)];
    put_bytes(buffer, next, &tail)
}

// "`%e` is seconds with three decimals, exactly the milliseconds"
fn put_seconds(n: u64, buffer: &mut [u8], place: usize) -> usize
    requires { OpenText buffer.old place }
    ensures { PutsText buffer.old place (seconds_text n) buffer.new result }
{
    let next = put_decimal(n / 1000, buffer, place);
    if TEXT < next {
        return next;
    }
    let tail = [b'.', digit(n / 100), digit(n / 10), digit(n)];
    put_bytes(buffer, next, &tail)
}

fn put_piece(p: StatusPiece, buffer: &mut [u8], place: usize) -> usize
    requires { OpenText buffer.old place }
    ensures { PutsText buffer.old place (piece_text p) buffer.new result }
{
    match p {
        StatusPiece::Number(n) => put_decimal(n, buffer, place),
        StatusPiece::Tenths(n) => put_tenths(n, buffer, place),
        StatusPiece::Seconds(n) => put_seconds(n, buffer, place),
        StatusPiece::Byte(b) => put_byte(buffer, place, b),
    }
}

// Whether a byte behind a `%` names a placeholder. The compiler makes a table of these tests: by a `matches!` or a
// `match` on the same bytes a format of nothing but `%` takes twice as long.
fn known_key(b: u8) -> bool
    ensures { result ≡ known_key b }
{
    if b == b's' {
        return true;
    }
    if b == b't' {
        return true;
    }
    if b == b'p' {
        return true;
    }
    if b == b'r' {
        return true;
    }
    if b == b'u' {
        return true;
    }
    if b == b'f' {
        return true;
    }
    if b == b'o' {
        return true;
    }
    if b == b'c' {
        return true;
    }
    if b == b'e' {
        return true;
    }
    b == b'%'
}

// Whether this byte stands behind a `%` and names no placeholder.
#[tactic(auto, unfolding(crate::specs::Line::wrong_key))]
fn wrong_key(after: bool, b: u8) -> bool
    ensures { result ≡ wrong_key after b }
{
    after && !known_key(b)
}

// Whether the byte behind this one stands behind a `%` that begins a placeholder.
#[tactic(auto, unfolding(crate::specs::Line::next_state))]
fn next_state(after: bool, b: u8) -> bool
    ensures { result ≡ next_state after b }
{
    !after && b == b'%'
}

// "Another `%` is refusal 21 there"
fn first_wrong(format: &[u8]) -> Option<usize>
    ensures { result ≡ wrong_from 0 false format.now }
{
    let mut after = false;
    for i in 0..format.len() {
        if wrong_key(after, format[i]) {
            return Some(i - 1);
        }
        after = next_state(after, format[i]);
    }
    if after {
        return Some(format.len() - 1);
    }
    None
}

// What one byte of the format adds to the line.
fn put_element(s: Status, after: bool, b: u8, buffer: &mut [u8], place: usize) -> usize
    requires { OpenText buffer.old place }
    ensures { PutsText buffer.old place (element_text s after b) buffer.new result }
{
    if after {
        return put_piece(piece_at(s, b), buffer, place);
    }
    if b == b'%' {
        return place;
    }
    put_byte(buffer, place, b)
}

fn put_line(s: Status, format: &[u8], buffer: &mut [u8]) -> usize
    requires { OpenText buffer.old 0 }
    ensures { PutsText buffer.old 0 (line_from s false format.now) buffer.new result }
{
    let mut after = false;
    let mut n = 0;
    for &b in format {
        n = put_element(s, after, b, buffer, n);
        if TEXT < n {
            return n;
        }
        after = next_state(after, b);
    }
    n
}

// The line of a sound format, or 17.
fn fill_line(s: Status, format: &[u8], buffer: &mut [u8]) -> Result<usize, LineRefusal>
    requires { OpenText buffer.old 0 }
    ensures { StatusLineMeets (fitting_line (line_from s false format.now)) buffer.old (line_says result) buffer.new }
{
    let n = put_line(s, format, buffer);
    if TEXT < n {
        zero_bytes_from(buffer, 0);
        return Err(LineRefusal::LongLine);
    }
    zero_bytes_from(buffer, n);
    Ok(n)
}

// The line of a status as it stands: 1, 21, 17, or the bytes written.
pub fn line(s: Status, format: &[u8], buffer: &mut [u8]) -> Result<usize, LineRefusal>
    ensures { StatusLineMeets (line_outcome s format.now (length buffer.old)) buffer.old (line_says result) buffer.new }
{
    if buffer.len() < TEXT {
        return Err(LineRefusal::ShortBuffer);
    }
    if let Some(p) = first_wrong(format) {
        zero_bytes_from(buffer, 0);
        return Err(LineRefusal::BadPlaceholder(p));
    }
    fill_line(s, format, buffer)
}
