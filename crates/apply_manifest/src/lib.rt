// The reader of a bundle of manifest texts: 19, 2 and 3 for the whole of it, then the lines of the top file and of
// those that it opens.
#![tactic(auto)]

ghost use Rattle.lists.specs.Lent.{Spare, Leaves};
ghost use Rattle.apply_manifest.specs.Manifests.{Roomy, LinesAsk, LinesRead, IsRead};
ghost use Rattle.hold_reading.specs.Buffers.{SameRoom, buffers};

use apply_texts::{Opening, read_text};
use hold_bindings::begin_bindings;
use hold_names::clear;
use hold_reading::{Counts, State};
use scan_texts::{bytes_together, first_bad, is_sound_bundle};
use spec::Refusal;
use spec::limits::{MANIFEST, OPEN};

// Nothing is read, and the top file is open.
const NOTHING: Counts = Counts {
    files: 0,
    steps: 0,
    paths: 0,
    defaults: 0,
    entries: 0,
    rules: 0,
    bindings: 0,
    mentions: 0,
    written: 0,
    opened: 1,
};

// The top file from its first line on, whatever the buffers held before.
fn read_lines(
    t: &[u8; 256],
    b: &[u8],
    names: &mut [u8],
    index: &mut [u32],
    texts: &mut [u8],
    bind: &mut [u32],
    graph: &mut [u32],
    word: &mut [u8],
) -> Result<State, Refusal>
    requires { LinesAsk t.now b.now (buffers names.old index.old texts.old bind.old graph.old) word.old }
    ensures { Leaves (SameRoom (buffers names.old index.old texts.old bind.old graph.old) (buffers names.new index.new texts.new bind.new graph.new) × (Spare word.old word.new)) (LinesRead b.now (buffers names.new index.new texts.new bind.new graph.new) result) }
{
    clear(index);
    begin_bindings(bind);
    let top = Opening {
        record: 0,
        more: OPEN - 1,
    };
    read_text(t, b, top, names, index, texts, bind, graph, word, NOTHING)
}

// Reads a bundle of manifest texts into the buffers: how much they hold then, or the first refusal. "Order: 1, 2, 3;
// lines from the top", with 19 for a malformed bundle before 2. The word buffer is working space, and after a refusal
// all are.
pub fn read_manifest(
    t: &[u8; 256],
    b: &[u8],
    names: &mut [u8],
    index: &mut [u32],
    texts: &mut [u8],
    bind: &mut [u32],
    graph: &mut [u32],
    word: &mut [u8],
) -> Result<Counts, Refusal>
    requires { Roomy t.now (buffers names.old index.old texts.old bind.old graph.old) word.old }
    ensures { Leaves (SameRoom (buffers names.old index.old texts.old bind.old graph.old) (buffers names.new index.new texts.new bind.new graph.new) × (Spare word.old word.new)) (IsRead b.now (buffers names.new index.new texts.new bind.new graph.new) result) }
{
    if !is_sound_bundle(b) {
        return Err(Refusal::BadBundle);
    }
    if MANIFEST < bytes_together(b) {
        return Err(Refusal::LongManifest);
    }
    if let Some(p) = first_bad(b) {
        return Err(Refusal::BadByte(p));
    }
    let read = read_lines(t, b, names, index, texts, bind, graph, word)?;
    Ok(read.counts)
}
