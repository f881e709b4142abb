// The manifest reader for Rust: the buffers come from outside, so their room is checked first.
#![tactic(auto)]

ghost use Rattle.std.specs.Prelude.{◌≡◌};
ghost use Rattle.apply_manifest.specs.Manifests.{Roomy};
ghost use Rattle.test_manifest.specs.Numbers.{bare_numbers, in_numbers, Cleared, JudgesRoom, ReadWhole, ReadsManifest};
ghost use Rattle.hold_reading.specs.Buffers.{buffers};

use answer_places::locate;
use answers::{Placed, of_refusal};
use apply_manifest::read_manifest;
use hold_bindings::{ROWS, TEXTS};
use hold_names::NUMBERS;
use hold_reading::Counts;
use hold_reading::columns::COLUMNS_ROOM;
use scan_classes::table;
use spec::Refusal;
use spec::limits::{VALUE, WRITTEN};

// What is answered: three times 0 and how much the buffers hold; or a refusal's number and its place in two numbers;
// or 255 for buffers without room.
#[repr(C)]
#[derive(Clone, Copy)]
pub struct ReadNumbers {
    pub number: usize,
    // 0 where the place is a number by itself, else the record of its text and one more
    pub text: usize,
    pub place: usize,
    pub files: usize,
    pub steps: usize,
    pub paths: usize,
    pub defaults: usize,
    pub entries: usize,
    pub rules: usize,
    pub bindings: usize,
    pub mentions: usize,
    pub written: usize,
}

// Have the buffers room for any manifest.
fn is_roomy(
    names: &[u8],
    index: &[u32],
    texts: &[u8],
    bind: &[u32],
    graph: &[u32],
    word: &[u8],
) -> bool
    ensures { JudgesRoom (buffers names.now index.now texts.now bind.now graph.now) word.now result }
{
    if names.len() < WRITTEN {
        return false;
    }
    if 4294967295 < names.len() {
        return false;
    }
    if index.len() < NUMBERS {
        return false;
    }
    if texts.len() < TEXTS {
        return false;
    }
    if bind.len() < ROWS {
        return false;
    }
    if graph.len() < COLUMNS_ROOM {
        return false;
    }
    if word.len() < VALUE {
        return false;
    }
    true
}

// A number and a place, and nothing counted.
fn uncounted(p: Placed) -> ReadNumbers
    ensures { result ≡ bare_numbers p.number p.text p.value }
{
    ReadNumbers {
        number: p.number,
        text: p.text,
        place: p.value,
        files: 0,
        steps: 0,
        paths: 0,
        defaults: 0,
        entries: 0,
        rules: 0,
        bindings: 0,
        mentions: 0,
        written: 0,
    }
}

fn in_numbers(bundle: &[u8], a: Result<Counts, Refusal>) -> ReadNumbers
    ensures { result ≡ in_numbers bundle.now a }
{
    match a {
        Ok(c) => ReadNumbers {
            number: 0,
            text: 0,
            place: 0,
            files: c.files,
            steps: c.steps,
            paths: c.paths,
            defaults: c.defaults,
            entries: c.entries,
            rules: c.rules,
            bindings: c.bindings,
            mentions: c.mentions,
            written: c.written,
        },
        Err(r) => uncounted(locate(of_refusal(r), bundle)),
    }
}

// Zeroes the buffers that a manifest was read into.
fn clear_all(
    names: &mut [u8],
    index: &mut [u32],
    texts: &mut [u8],
    bind: &mut [u32],
    graph: &mut [u32],
)
    ensures { Cleared (buffers names.old index.old texts.old bind.old graph.old) (buffers names.new index.new texts.new bind.new graph.new) }
{
    slices::bytes::zero_bytes_from(names, 0);
    slices::words::zero_words_from(index, 0);
    slices::bytes::zero_bytes_from(texts, 0);
    slices::words::zero_words_from(bind, 0);
    slices::words::zero_words_from(graph, 0);
}

// The reader with what a total entry promises of its buffers: a refusal leaves them all zero, and the word buffer is
// zero in any case.
fn read_or_clear(
    t: &[u8; 256],
    m: &[u8],
    names: &mut [u8],
    index: &mut [u32],
    texts: &mut [u8],
    bind: &mut [u32],
    graph: &mut [u32],
    word: &mut [u8],
) -> Result<Counts, Refusal>
    requires { Roomy t.now (buffers names.old index.old texts.old bind.old graph.old) word.old }
    ensures { ReadWhole m.now (buffers names.old index.old texts.old bind.old graph.old) word.old result (buffers names.new index.new texts.new bind.new graph.new) word.new }
{
    let a = read_manifest(t, m, names, index, texts, bind, graph, word);
    slices::bytes::zero_bytes_from(word, 0);
    if a.is_ok() {
        return a;
    }
    clear_all(names, index, texts, bind, graph);
    a
}

// Reads the manifest of a bundle into buffers of any length. The word buffer is left zero, and all are after a
// refusal. Buffers without room are answered with 255 and not touched.
#[unsafe(no_mangle)]
pub extern "C" fn kestrenyo_read(
    bundle: &[u8],
    names: &mut [u8],
    index: &mut [u32],
    texts: &mut [u8],
    bind: &mut [u32],
    graph: &mut [u32],
    word: &mut [u8],
) -> ReadNumbers
    ensures { ReadsManifest bundle.now (buffers names.old index.old texts.old bind.old graph.old) word.old result (buffers names.new index.new texts.new bind.new graph.new) word.new }
{
    if !is_roomy(names, index, texts, bind, graph, word) {
        return uncounted(Placed {
            number: 255,
            text: 0,
            value: 0,
        });
    }
    let t = table();
    in_numbers(
        bundle,
        read_or_clear(&t, bundle, names, index, texts, bind, graph, word),
    )
}
