// Where the columns of the graph start in its buffer; the mentions start at 0. `specs/Held.antt` says what they hold.
ghost use Rattle.std.specs.Prelude.{◌≡◌, ◌+◌, ◌<◌, length};
ghost use Rattle.hold_columns.specs.Columns.{end_place};
ghost use Rattle.hold_reading.specs.Held.{ends_start, end_in};

use hold_bindings::ENTRIES;
use hold_columns::{STEP_ENDS, end_place};
use slices::words::at;
use spec::limits::{FILES, MANIFEST, MENTIONS, STEPS};

// A step's rule is a number below this, its scope so many times it.
pub const SCOPE_UNIT: usize = ENTRIES + 1;

// the ends of each step's parts, among the mentions
pub const ENDS_START: usize = MENTIONS;
// whether a step is phony
pub const PHONY_START: usize = ENDS_START + STEP_ENDS * STEPS;
// the step that makes a file
pub const MADE_START: usize = PHONY_START + STEPS;
// the rule of a step and the scope that it stands in, as one number
pub const RULE_START: usize = MADE_START + FILES;

pub const DEFAULTS_START: usize = RULE_START + STEPS;
// where the columns end; behind them is room for working on a line, one number for each byte of a manifest
pub const COLUMNS_END: usize = DEFAULTS_START + MENTIONS;

pub const COLUMNS_ROOM: usize = COLUMNS_END + MANIFEST;

// Where part k of step s ends among the mentions.
pub fn step_end(graph: &[u32], s: usize, k: usize) -> usize
    requires { ends_start + end_place s k < length graph.now }
    ensures { result ≡ end_in graph.now s k }
{
    at(graph, ENDS_START + end_place(s, k))
}
