// The name of a step's depfile, by the text of its rule's key (document 02, [4]).
#![tactic(auto)]

ghost use Rattle.std.specs.Prelude.{List, ℕ};
ghost use Rattle.spec.specs.TextAsk.{TextOutcome};
ghost use Rattle.hold_reading.specs.Buffers.{buffers};
ghost use Rattle.text_step.specs.Asks.{AnswersText};
ghost use Rattle.ask_depfile_names.specs.Names.{NameIs, DepfileAsk, NamesDepfile};

use hold_reading::{Counts, ReadBuffers};
use spec::{Key, Refusal};
use text_lookup::Asked;
use text_step::steps::asked;
use text_step::text_at;

// "empty means none"
fn named(answer: Result<usize, Refusal>) -> Result<Option<usize>, Refusal>
    ensures { (o : TextOutcome) (word : List ℕ) → AnswersText o word answer → NameIs o word result }
{
    let n = answer?;
    if n == 0 {
        return Ok(None);
    }
    Ok(Some(n))
}

// The name of the depfile of a step, where the table of names has so many files: those of the reading, and others
// named since. How many bytes the name has, or None where no depfile is named, as for a phony step.
pub fn depfile_name(
    t: &[u8; 256],
    names: &[u8],
    index: &[u32],
    texts: &[u8],
    bind: &[u32],
    graph: &[u32],
    c: Counts,
    files: usize,
    step: usize,
    word: &mut [u8],
) -> Result<Option<usize>, Refusal>
    requires { DepfileAsk t.now (buffers names.now index.now texts.now bind.now graph.now) c files step word.old }
    ensures { NamesDepfile (buffers names.now index.now texts.now bind.now graph.now) c files step word.new result }
{
    let Some(a) = asked(texts, bind, graph, c, step) else {
        return Ok(None);
    };
    let grown = Asked { files, ..a };
    let read = ReadBuffers {
        names,
        index,
        texts,
        bind,
        graph,
    };
    let answer = text_at(t, &read, grown, Key::Depfile, word);
    named(answer)
}
