// The text ask: the manifest is read into buffers of the ask's own, and the step's text is written from them.
#![tactic(auto)]

ghost use Rattle.std.specs.Prelude.{◌≤◌, length};
ghost use Rattle.spec.specs.Limits.{max_text};
ghost use Rattle.spec.specs.Promises.{TextPromise};

use apply_manifest::read_manifest;
use hold_bindings::{ROWS, TEXTS};
use hold_names::NUMBERS;
use hold_reading::ReadBuffers;
use hold_reading::columns::COLUMNS_ROOM;
use scan_classes::table;
use slices::bytes::zero_bytes_from;
use spec::limits::{VALUE, WRITTEN};
use spec::{Refusal, Wanted};
use text_step::{StepText, text_of};

// With a text buffer of 8,192 bytes at least.
pub fn text_buffered(
    manifest: &[u8],
    step: usize,
    wanted: Wanted,
    buffer: &mut [u8],
) -> Result<usize, Refusal>
    requires { max_text ≤ length buffer.old }
    ensures { TextPromise manifest.now step wanted buffer.old result buffer.new }
{
    let t = table();
    let mut names = [0u8; WRITTEN];
    let mut index = [0u32; NUMBERS];
    let mut texts = [0u8; TEXTS];
    let mut bind = [0u32; ROWS];
    let mut graph = [0u32; COLUMNS_ROOM];
    let mut word = [0u8; VALUE];
    // no `?`: a refusal leaves the lent buffers zero
    match read_manifest(
        &t, manifest, &mut names, &mut index, &mut texts, &mut bind, &mut graph, &mut word,
    ) {
        Ok(c) => {
            let read = ReadBuffers {
                names: &names,
                index: &index,
                texts: &texts,
                bind: &bind,
                graph: &graph,
            };
            text_of(&t, &read, c, StepText { step, wanted }, buffer)
        }
        Err(r) => {
            zero_bytes_from(buffer, 0);
            Err(r)
        }
    }
}
