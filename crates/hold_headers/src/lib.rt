// The second columns of the graph, which have the listed inputs: what they tell of a step's depfile.
// `specs/Headed.antt` says what they hold.
#![tactic(auto)]

ghost use Rattle.std.specs.Prelude.{◌≡◌, ◌+◌, ◌<◌, length};
ghost use Rattle.hold_reading.specs.Held.{rule_start};
ghost use Rattle.hold_headers.specs.Headed.{listed_in};

use hold_reading::columns::RULE_START;
use slices::words::at;

// What the depfile of a step tells: twice the number of files that it lists, which are the last of the step's implicit
// inputs, and one more where it is missing.
pub fn listed_number(graph: &[u32], s: usize) -> usize
    requires { rule_start + s < length graph.now }
    ensures { result ≡ listed_in graph.now s }
{
    at(graph, RULE_START + s)
}
