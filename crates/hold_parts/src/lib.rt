// The columns of the graph as parts of their buffer.
#![tactic(auto)]

ghost use Rattle.std.specs.Prelude.{◌≡◌};
ghost use Rattle.hold_parts.specs.Parts.{mentions_in, ends_in, phony_in, made_in, ColumnsCut};

use hold_columns::STEP_ENDS;
use hold_reading::Counts;
use hold_reading::columns::{ENDS_START, MADE_START, PHONY_START};

// Every mention of a file by a step.
pub fn mentions_part<'a>(graph: &'a [u32], c: Counts) -> &'a [u32]
    requires { ColumnsCut graph.now c }
    ensures { result.now ≡ mentions_in graph.now c }
{
    &graph[..c.paths]
}

// Where each step's parts of them end.
pub fn ends_part<'a>(graph: &'a [u32], c: Counts) -> &'a [u32]
    requires { ColumnsCut graph.now c }
    ensures { result.now ≡ ends_in graph.now c }
{
    &graph[ENDS_START..ENDS_START + STEP_ENDS * c.steps]
}

// Which steps are phony.
pub fn phony_part<'a>(graph: &'a [u32], c: Counts) -> &'a [u32]
    requires { ColumnsCut graph.now c }
    ensures { result.now ≡ phony_in graph.now c }
{
    &graph[PHONY_START..PHONY_START + c.steps]
}

// Each file's maker.
pub fn made_part<'a>(graph: &'a [u32], c: Counts) -> &'a [u32]
    requires { ColumnsCut graph.now c }
    ensures { result.now ≡ made_in graph.now c }
{
    &graph[MADE_START..MADE_START + c.files]
}
