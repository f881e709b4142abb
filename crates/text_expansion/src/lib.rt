// A step's text written into the lent buffer: a name's text as it is, or a rule's text expanded by the same lookup.
// Each rule key is expanded once.
#![tactic(auto)]

ghost use Rattle.text_expansion.specs.Asks.{RawTextAsk, NameTextAsk, WritesText, WritesName};
ghost use Rattle.hold_reading.specs.ReadBuffers.{buffers_of};

use hold_bindings::value;
use hold_reading::ReadBuffers;
use plain::write_plain;
use spec::limits::TEXT;
use text_lookup::{Asked, Source, lookup};
use text_memo::{Draft, remember, span_of, write, write_again};
use text_references::{Piece, piece_at};

pub mod plain;

// A raw text of a rule, whose names go less than `a.depth` rule texts deep.
#[cycle(write_name_write_text)]
fn write_text(
    t: &[u8; 256],
    read: &ReadBuffers,
    a: Asked,
    raw: &[u8],
    buffer: &mut [u8],
    d: Draft,
) -> Draft
    requires { RawTextAsk t.now (buffers_of read.now) a raw.now buffer.old d }
    ensures { WritesText (buffers_of read.now) a raw.now buffer.old d buffer.new result }
{
    let mut x = d;
    let mut i = 0;
    while i < raw.len() {
        match piece_at(t, raw, i) {
            Piece::Bytes(from, to, next) => {
                x = write(buffer, x, &raw[from..to]);
                if TEXT < x.at {
                    return x;
                }
                i = next;
            }
            Piece::Name(from, to, next) => {
                x = write_name(t, read, a, &raw[from..to], buffer, x);
                if TEXT < x.at {
                    return x;
                }
                i = next;
            }
        }
    }
    x
}

// The text of a name, which goes less than `a.depth` rule texts deep. That of a rule's key is copied where it stands
// already, else expanded.
#[cycle(write_name_write_text)]
pub fn write_name(
    t: &[u8; 256],
    read: &ReadBuffers,
    a: Asked,
    name: &[u8],
    buffer: &mut [u8],
    d: Draft,
) -> Draft
    requires { NameTextAsk t.now (buffers_of read.now) a name.now buffer.old d }
    ensures { WritesName (buffers_of read.now) a name.now buffer.old d buffer.new result }
{
    let source = lookup(read.texts, read.bind, a, name);
    if let Source::Text(k) = source {
        if let Some(span) = span_of(d, name) {
            return write_again(buffer, d, span.from, span.to);
        }
        let raw = value(read.texts, read.bind, k);
        let deeper = Asked {
            depth: a.depth - 1,
            ..a
        };
        let x = write_text(t, read, deeper, raw, buffer, d);
        return remember(x, name, d.at);
    }
    write_plain(read, a, source, buffer, d)
}
