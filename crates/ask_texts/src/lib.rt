// The texts ask: the manifest is read into buffers of the ask's own, once, and the steps' texts are written from them.
#![tactic(auto)]

ghost use Rattle.std.specs.Prelude.{◌≤◌, length};
ghost use Rattle.spec.specs.Limits.{max_text};
ghost use Rattle.text_batch.specs.TextsPromise.{TextsPromise};

use apply_manifest::read_manifest;
use hold_bindings::{ROWS, TEXTS};
use hold_names::NUMBERS;
use hold_reading::ReadBuffers;
use hold_reading::columns::COLUMNS_ROOM;
use scan_classes::table;
use spec::limits::{VALUE, WRITTEN};
use spec::{Refusal, Wanted};
use text_batch::texts_of;

// With a buffer of 8,192 bytes at least.
pub fn texts_buffered(
    manifest: &[u8],
    steps: &[u32],
    wanted: Wanted,
    bytes: &mut [u8],
    ends: &mut [u32],
) -> Result<usize, Refusal>
    requires { max_text ≤ length bytes.old }
    ensures { TextsPromise manifest.now steps.now wanted bytes.old ends.old result bytes.new ends.new }
{
    let t = table();
    let mut names = [0u8; WRITTEN];
    let mut index = [0u32; NUMBERS];
    let mut texts = [0u8; TEXTS];
    let mut bind = [0u32; ROWS];
    let mut graph = [0u32; COLUMNS_ROOM];
    let mut word = [0u8; VALUE];
    // no `?`: a refusal leaves the lent buffers zero
    match read_manifest(
        &t, manifest, &mut names, &mut index, &mut texts, &mut bind, &mut graph, &mut word,
    ) {
        Ok(c) => {
            let read = ReadBuffers {
                names: &names,
                index: &index,
                texts: &texts,
                bind: &bind,
                graph: &graph,
            };
            texts_of(&t, &read, c, steps, wanted, bytes, ends)
        }
        Err(r) => {
            slices::bytes::zero_bytes_from(bytes, 0);
            slices::words::zero_words_from(ends, 0);
            Err(r)
        }
    }
}
