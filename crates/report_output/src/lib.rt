// All that the program writes, as definitions; and its output where it is a refusal, in a lent line.
#![tactic(auto)]

ghost use Rattle.std.specs.Prelude.{◌≤◌, length};
ghost use Rattle.answers.specs.Numbers.{said};
ghost use Rattle.printing.specs.Lines.{circle_output};
ghost use Rattle.printing.specs.Writes.{line_room};
ghost use Rattle.report_output.specs.Opens.{refusing, refusal_line, OpensReport};

use answer_places::locate;
use answers::Numbers;
use printing::{say_circle, say_refused};

// How the output begins: the line holds all of it, this many bytes, which say that there is no work or that the
// planner refuses; or the lines of this many steps are to come, and for so many of the first the buffers hold the
// texts.
#[derive(Clone, Copy)]
pub enum Begun {
    Whole(usize),
    Refusal(usize),
    Steps(usize, usize),
}

// The line of a refusal, with its place among the texts of the bundle.
pub fn refuse(line: &mut [u8], bundle: &[u8], n: Numbers) -> Begun
    requires { line_room ≤ length line.old }
    ensures { OpensReport (refusing (refusal_line bundle.now (said n))) line.old result line.new }
{
    Begun::Refusal(say_refused(line, locate(n, bundle)))
}

// The lines of a circle.
pub fn refuse_circle(line: &mut [u8], circle: &[u32]) -> Begun
    requires { (line_room ≤ length line.old) × (length circle.now ≤ 512) }
    ensures { OpensReport (refusing (circle_output circle.now)) line.old result line.new }
{
    Begun::Refusal(say_circle(line, circle))
}
