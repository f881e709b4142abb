// What the reader keeps beside its lent buffers: counts and the open block. `specs/Held.antt` says what the buffers
// hold.
#![tactic(auto)]

ghost use Rattle.std.specs.Prelude.{◌≡◌};

pub mod columns;

use spec::Refusal;

// What has been counted so far. `paths` are the mentions of build lines alone, `entries` the rows of the binding
// table.
#[derive(Clone, Copy)]
pub struct Counts {
    pub files: usize,
    pub steps: usize,
    pub paths: usize,
    pub defaults: usize,
    pub entries: usize,
    pub rules: usize,
    pub bindings: usize,
    pub mentions: usize,
    pub written: usize,
    pub opened: usize,
}

// The buffers of a reading that is over, read alone: the bytes and the numbers of the names, the bytes and the rows of
// the bindings, and the columns of the graph.
#[derive(Clone, Copy)]
pub struct ReadBuffers<'a> {
    pub names: &'a [u8],
    pub index: &'a [u32],
    pub texts: &'a [u8],
    pub bind: &'a [u32],
    pub graph: &'a [u32],
}

#[derive(Clone, Copy)]
pub enum Open {
    Nothing,
    // a rule's block: the start of its line, and its entry in the binding table
    Rule(usize, usize),
    // the newest step's block
    Step,
}

// Where a line starts, and whether a newline ends it.
#[derive(Clone, Copy)]
pub struct Line {
    pub start: usize,
    pub ended: bool,
}

// What is kept from line to line beside the buffers.
#[derive(Clone, Copy)]
pub struct State {
    pub counts: Counts,
    pub open: Open,
}

// What a line does that may open a file. It is answered like the others, by what goes on or a refusal; or it opens
// one, in a new scope or not, by the raw path from one place of the line to another.
// No `Result`: a file that is opened is no failure, and the answer holds one already.
#[derive(Clone, Copy)]
pub enum LineTurn {
    Answered(Result<State, Refusal>),
    Opens(Counts, bool, usize, usize),
}

// A line that opens none.
pub fn turned(a: Result<State, Refusal>) -> LineTurn
    ensures { result ≡ LineTurn.Answered a }
{
    LineTurn::Answered(a)
}
