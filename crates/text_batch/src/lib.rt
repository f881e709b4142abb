// The texts of many steps from what a manifest was read into, one behind the other, and where each ends.
#![tactic(auto)]

ghost use Rattle.hold_reading.specs.ReadBuffers.{buffers_of};
ghost use Rattle.std.specs.Prelude.{◌≡◌, length};
ghost use Rattle.lists.specs.Lent.{Spare, Leaves};
ghost use Rattle.text_batch.specs.Batch.{PutAsk, Puts, WalkAsk, Walks, BatchAsk, TextsOf};
ghost use Rattle.text_batch.specs.TextsAsk.{endable};
ghost use Rattle.text_step.specs.Asks.{TextAsk};

use hold_reading::{Counts, ReadBuffers};
use slices::bytes::copy_at;
use slices::words::at;
use spec::limits::TEXT;
use spec::{Refusal, Wanted};
use text_step::{StepText, text_of};

// What all texts of a walk share: which of a step's two is wanted, and how many bytes they have room in.
#[derive(Clone, Copy)]
pub struct Batch {
    pub wanted: Wanted,
    pub room: usize,
}

// The next text of a walk: whose it is, how many bytes those before it take, and how many all have room in.
#[derive(Clone, Copy)]
pub struct NextText {
    pub step: usize,
    pub wanted: Wanted,
    pub end: usize,
    pub room: usize,
}

// Writes a text behind those before it, by way of a buffer for one text, and gives where it ends; `None` where it has
// no room.
fn put_text(
    t: &[u8; 256],
    read: &ReadBuffers,
    c: Counts,
    x: NextText,
    one: &mut [u8],
    bytes: &mut [u8],
) -> Result<Option<usize>, Refusal>
    requires { PutAsk t.now (buffers_of read.now) c one.old bytes.old x.end x.room }
    ensures { Leaves (Spare one.old one.new) (Puts (buffers_of read.now) c x.step x.wanted x.end x.room bytes.old bytes.new result) }
{
    let NextText {
        step,
        wanted,
        end,
        room,
    } = x;
    let asked = StepText { step, wanted };
    let n = text_of(t, read, c, asked, one)?;
    if room - end < n {
        return Ok(None);
    }
    copy_at(bytes, end, &one[..n]);
    Ok(Some(end + n))
}

// Goes through the steps until one is refused or has no room: how many texts there are, and where they end.
fn walk(
    t: &[u8; 256],
    read: &ReadBuffers,
    c: Counts,
    b: Batch,
    steps: &[u32],
    one: &mut [u8],
    bytes: &mut [u8],
    ends: &mut [u32],
) -> Result<(usize, usize), Refusal>
    requires { WalkAsk t.now (buffers_of read.now) c one.old bytes.old b.room }
    ensures { Leaves (Spare one.old one.new) (Walks (buffers_of read.now) c steps.now b.wanted b.room (length ends.old) bytes.new ends.new result) }
{
    let Batch { wanted, room } = b;
    let mut end = 0;
    for i in 0..steps.len() {
        let step = at(steps, i);
        let x = NextText {
            step,
            wanted,
            end,
            room,
        };
        let Some(e) = put_text(t, read, c, x, one, bytes)? else {
            return Ok((i, end));
        };
        if ends.len() <= i {
            return Ok((i, end));
        }
        ends[i] = e as u32;
        end = e;
    }
    Ok((steps.len(), end))
}

// How much of a buffer can be used, where ends are numbers of 32 bits.
fn usable(room: usize) -> usize
    ensures { result ≡ endable room }
{
    room.min(0xffff_ffff)
}

// With a buffer for one text lent.
fn texts_by(
    t: &[u8; 256],
    read: &ReadBuffers,
    c: Counts,
    steps: &[u32],
    wanted: Wanted,
    one: &mut [u8],
    bytes: &mut [u8],
    ends: &mut [u32],
) -> Result<usize, Refusal>
    requires { TextAsk t.now (buffers_of read.now) c one.old }
    ensures { Leaves (Spare one.old one.new) (TextsOf (buffers_of read.now) c steps.now wanted bytes.old ends.old bytes.new ends.new result) }
{
    let room = usable(bytes.len());
    let b = Batch { wanted, room };
    // no `?`: a refusal leaves the lent buffers zero
    match walk(t, read, c, b, steps, one, bytes, ends) {
        Ok((n, end)) => {
            slices::bytes::zero_bytes_from(bytes, end);
            slices::words::zero_words_from(ends, n);
            Ok(n)
        }
        Err(r) => {
            slices::bytes::zero_bytes_from(bytes, 0);
            slices::words::zero_words_from(ends, 0);
            Err(r)
        }
    }
}

// The texts of as many leading steps as have room, and their ends; or the refusal of the first step that has one.
pub fn texts_of(
    t: &[u8; 256],
    read: &ReadBuffers,
    c: Counts,
    steps: &[u32],
    wanted: Wanted,
    bytes: &mut [u8],
    ends: &mut [u32],
) -> Result<usize, Refusal>
    requires { BatchAsk t.now (buffers_of read.now) c }
    ensures { TextsOf (buffers_of read.now) c steps.now wanted bytes.old ends.old bytes.new ends.new result }
{
    let mut one = [0u8; TEXT];
    texts_by(t, read, c, steps, wanted, &mut one, bytes, ends)
}
