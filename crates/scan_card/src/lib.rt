// The time card: whether its bytes are a sound one.
#![tactic(auto)]

ghost use Rattle.std.specs.Prelude.{◌≡◌, ◌+◌, ◌≤◌, length};
ghost use Rattle.spec.specs.Card.{record_at, sound_layout, sound_header, sound_record, sound_names, sound_card};
ghost use Rattle.scan_card.specs.Fields.{Headed};

use byte_order::less;
use scan_numbers::{long, word};
use spec::limits::{CARD, PATH, RECORDS};

// Whether a card breaks no rule.
pub fn sound(card: &[u8]) -> bool
    ensures { result ≡ sound_card card.now }
{
    if !sound_header(card) {
        return false;
    }
    let n = word(card, 0);
    sound_names(card, n)
}

fn sound_header(card: &[u8]) -> bool
    ensures { result ≡ sound_header card.now }
{
    if !sound_layout(card) {
        return false;
    }
    if CARD < card.len() {
        return false;
    }
    if RECORDS < word(card, 0) {
        return false;
    }
    true
}

// Whether the header lays out its records and the names behind them, however many; a bundle has it too.
pub fn sound_layout(s: &[u8]) -> bool
    ensures { result ≡ sound_layout s.now }
{
    if s.len() < 16 {
        return false;
    }
    let n = word(s, 0);
    if word(s, 4) != 16 {
        return false;
    }
    if word(s, 8) != 16 + 16 * n {
        return false;
    }
    if word(s, 12) != s.len() {
        return false;
    }
    if s.len() < 16 + 16 * n {
        return false;
    }
    true
}

// Whether the n records and the names break no rule. The name before the one at hand lies from `from` to `to`; before
// the first there is an empty one.
fn sound_names(card: &[u8], n: usize) -> bool
    requires { Headed card.now n }
    ensures { result ≡ sound_names card.now }
{
    let names = 16 + 16 * n;
    let mut from = names;
    let mut to = names;
    for k in 0..n {
        let at = 16 + 16 * k;
        if !sound_record(card, at, to - names) {
            return false;
        }
        let end = to + word(card, at + 4);
        if card.len() < end {
            return false;
        }
        if !less(&card[from..to], &card[to..end]) {
            return false;
        }
        from = to;
        to = end;
    }
    to == card.len()
}

// Whether the record at `at` breaks no rule, where its name has to start at `start`.
fn sound_record(card: &[u8], at: usize, start: usize) -> bool
    requires { at + 16 ≤ length card.now }
    ensures { result ≡ sound_record start (record_at at card.now) }
{
    if word(card, at) != start {
        return false;
    }
    let size = word(card, at + 4);
    if size < 1 {
        return false;
    }
    if PATH < size {
        return false;
    }
    let time = long(card, at + 8);
    if time < 1 {
        return false;
    }
    if 9223372036854775807 < time {
        return false;
    }
    true
}
