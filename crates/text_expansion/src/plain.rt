// Texts that are written as they are: the step's files, and values.
ghost use Rattle.std.specs.Prelude.{List, ℕ};
ghost use Rattle.lists.specs.Parts.{part};
ghost use Rattle.spec.specs.Text.{joined_by};
ghost use Rattle.hold_names.specs.Table.{HoldsNames};
ghost use Rattle.text_buffer.specs.Puts.{names_in};
ghost use Rattle.text_memo.specs.Draft.{WritesDraft};
ghost use Rattle.text_expansion.specs.Asks.{spelling, StepFilesAsk, PlainAsk, WritesPlain};
ghost use Rattle.hold_reading.specs.ReadBuffers.{buffers_of};

use hold_bindings::value;
use hold_reading::ReadBuffers;
use text_buffer::put_files;
use text_lookup::{Asked, Source};
use text_memo::{Draft, draft_at, write};

// The names of the step's files from one place of the mentions to another.
fn write_files(
    names: &[u8],
    index: &[u32],
    graph: &[u32],
    a: Asked,
    from: usize,
    to: usize,
    separator: u8,
    buffer: &mut [u8],
    d: Draft,
) -> Draft
    requires { StepFilesAsk names.now index.now graph.now a from to buffer.old d }
    ensures { (files : List (List ℕ)) → HoldsNames names.now index.now a.files files → WritesDraft buffer.old d (joined_by separator (names_in (spelling a) files (part graph.now from to))) buffer.new result }
{
    let n = put_files(
        names,
        index,
        a.files,
        &graph[from..to],
        separator,
        a.plain,
        buffer,
        d.at,
    );
    draft_at(d, n)
}

// Whatever a name stands for, but for a rule's text: "`$in` is the explicit inputs", "`$out` the outputs".
pub fn write_plain(
    read: &ReadBuffers,
    a: Asked,
    source: Source,
    buffer: &mut [u8],
    d: Draft,
) -> Draft
    requires { PlainAsk (buffers_of read.now) a source buffer.old d }
    ensures { WritesPlain (buffers_of read.now) a source buffer.old d buffer.new result }
{
    let outs = a.outs;
    let ins = a.ins;
    let rest = a.rest;
    match source {
        Source::Inputs => write_files(
            read.names, read.index, read.graph, a, ins, rest, b' ', buffer, d,
        ),
        Source::InputLines => write_files(
            read.names, read.index, read.graph, a, ins, rest, b'\n', buffer, d,
        ),
        Source::Outputs => write_files(
            read.names, read.index, read.graph, a, outs, ins, b' ', buffer, d,
        ),
        Source::Value(k) => write(buffer, d, value(read.texts, read.bind, k)),
        Source::Text(_) => d,
        Source::Unset => d,
    }
}
