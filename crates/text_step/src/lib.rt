// The text of a step from what a manifest was read into: 18, 16, 17, or the text.
#![tactic(auto)]

ghost use Rattle.std.specs.Prelude.{◌≡◌};
ghost use Rattle.spec.specs.Text.{key_name, spelled_by, spelling_for};
ghost use Rattle.spec.specs.TextAsk.{wanted_key};
ghost use Rattle.text_expansion.specs.Asks.{spelling};
ghost use Rattle.text_step.specs.Asks.{StepAsk, WholeAsk, WritesWhole, TextAt, TextAsk, TextOf};
ghost use Rattle.hold_reading.specs.ReadBuffers.{buffers_of};

use hold_keys::{key_name, key_names, number_of};
use hold_reading::{Counts, ReadBuffers};
use slices::bytes::zero_bytes_from;
use spec::limits::TEXT;
use spec::{Key, Refusal, Wanted};
use steps::asked;
use text_expansion::write_name;
use text_lookup::Asked;
use text_memo::blank;
use text_recursion::leads_back;

pub mod steps;

// The text that is asked for: of which step, and which of its two.
#[derive(Clone, Copy)]
pub struct StepText {
    pub step: usize,
    pub wanted: Wanted,
}

// Writes the text of a name into an empty buffer, and gives where it ends.
fn write_whole(t: &[u8; 256], read: &ReadBuffers, a: Asked, name: &[u8], buffer: &mut [u8]) -> usize
    requires { WholeAsk t.now (buffers_of read.now) a name.now buffer.old }
    ensures { WritesWhole (buffers_of read.now) a (spelling a) name.now buffer.old buffer.new result }
{
    let d = blank();
    let x = write_name(t, read, a, name, buffer, d);
    x.at
}

// "its depfile name (unquoted ..)": the one text that no shell reads.
fn is_plain(key: Key) -> bool
    ensures { spelled_by result ≡ spelling_for (key_name key) }
{
    match key {
        Key::Command => false,
        Key::Description => false,
        Key::Generator => false,
        Key::Depfile => true,
        Key::Pool => false,
    }
}

// Writes the text of a key.
fn write_key(t: &[u8; 256], read: &ReadBuffers, a: Asked, key: Key, buffer: &mut [u8]) -> usize
    requires { WholeAsk t.now (buffers_of read.now) a (key_name key) buffer.old }
    ensures { WritesWhole (buffers_of read.now) a (spelling_for (key_name key)) (key_name key) buffer.old buffer.new result }
{
    let keys = key_names();
    let k = number_of(key);
    let plain = is_plain(key);
    let spelt = Asked { plain, ..a };
    write_whole(t, read, spelt, key_name(&keys, k), buffer)
}

// 16, 17, or the text of a key with zeros beyond, for a step that is there and no phony.
pub fn text_at(
    t: &[u8; 256],
    read: &ReadBuffers,
    a: Asked,
    key: Key,
    buffer: &mut [u8],
) -> Result<usize, Refusal>
    requires { StepAsk t.now (buffers_of read.now) a buffer.old }
    ensures { TextAt (buffers_of read.now) a key buffer.old buffer.new result }
{
    if leads_back(t, read.texts, read.bind, a, key) {
        zero_bytes_from(buffer, 0);
        return Err(Refusal::EndlessText(a.step));
    }
    let n = write_key(t, read, a, key, buffer);
    if TEXT < n {
        zero_bytes_from(buffer, 0);
        return Err(Refusal::LongText(a.step));
    }
    zero_bytes_from(buffer, n);
    Ok(n)
}

fn wanted_key(wanted: Wanted) -> Key
    ensures { result ≡ wanted_key wanted }
{
    match wanted {
        Wanted::Command => Key::Command,
        Wanted::Description => Key::Description,
    }
}

// The text of a step: "18, 16, 17 for a text", or the text with zeros beyond.
pub fn text_of(
    t: &[u8; 256],
    read: &ReadBuffers,
    c: Counts,
    x: StepText,
    buffer: &mut [u8],
) -> Result<usize, Refusal>
    requires { TextAsk t.now (buffers_of read.now) c buffer.old }
    ensures { TextOf (buffers_of read.now) c x.step x.wanted buffer.old buffer.new result }
{
    let StepText { step, wanted } = x;
    let Some(a) = asked(read.texts, read.bind, read.graph, c, step) else {
        zero_bytes_from(buffer, 0);
        return Err(Refusal::NoCommand(step));
    };
    let key = wanted_key(wanted);
    text_at(t, read, a, key, buffer)
}
