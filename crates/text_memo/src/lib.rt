// A text being written, with where in it the texts of the rule's keys already stand: each of them is expanded once,
// and copied where it comes again.
#![tactic(auto)]

ghost use Rattle.std.specs.Prelude.{◌≡◌};
ghost use Rattle.lists.specs.Parts.{part};
ghost use Rattle.text_buffer.specs.Puts.{OpenText, PutsText};
ghost use Rattle.text_memo.specs.Draft.{nothing, span_for, Remembered, WrittenPart, Moved, WritesDraft};

use hold_keys::{RULE_KEYS, key_number};
use spec::limits::TEXT;
use text_buffer::{put_byte, put_bytes};

// A part of the text from place to place.
#[derive(Clone, Copy)]
pub struct Span {
    pub from: usize,
    pub to: usize,
}

// The place that is reached, and where the text of each rule's key stands, by the key's number, if it does.
#[derive(Clone, Copy)]
pub struct Draft {
    pub at: usize,
    pub spans: [Option<Span>; RULE_KEYS],
}

// Nothing is written and nothing remembered.
pub fn blank() -> Draft
    ensures { result ≡ nothing }
{
    Draft {
        at: 0,
        spans: [None; RULE_KEYS],
    }
}

// Where the text of a name stands, if it does.
pub fn span_of(d: Draft, name: &[u8]) -> Option<Span>
    ensures { result ≡ span_for d name.now }
{
    let k = key_number(name);
    if k < RULE_KEYS {
        return d.spans[k];
    }
    None
}

// The text of a name stands from a place up to the end.
pub fn remember(d: Draft, name: &[u8], from: usize) -> Draft
    ensures { Remembered d name.now from result }
{
    let k = key_number(name);
    if RULE_KEYS <= k {
        return d;
    }
    let to = d.at;
    let mut r = d;
    r.spans[k] = Some(Span { from, to });
    r
}

// A part of the text again, from a place on.
fn put_again(buffer: &mut [u8], from: usize, to: usize, place: usize) -> usize
    requires { WrittenPart buffer.old from to place }
    ensures { PutsText buffer.old place (part buffer.old from to) buffer.new result }
{
    let mut n = place;
    for i in from..to {
        let b = buffer[i];
        n = put_byte(buffer, n, b);
        if TEXT < n {
            return n;
        }
    }
    n
}

// The same draft at another place.
pub fn draft_at(d: Draft, at: usize) -> Draft
    ensures { Moved d at result }
{
    Draft { at, ..d }
}

// Writes bytes.
pub fn write(buffer: &mut [u8], d: Draft, s: &[u8]) -> Draft
    requires { OpenText buffer.old d.at }
    ensures { WritesDraft buffer.old d s.now buffer.new result }
{
    draft_at(d, put_bytes(buffer, d.at, s))
}

// Writes a part of the text again.
pub fn write_again(buffer: &mut [u8], d: Draft, from: usize, to: usize) -> Draft
    requires { WrittenPart buffer.old from to d.at }
    ensures { WritesDraft buffer.old d (part buffer.old from to) buffer.new result }
{
    draft_at(d, put_again(buffer, from, to, d.at))
}
