// What the program writes: document 01's section "Gauges on the bench", from the lent bytes to lines in a lent buffer.
#![tactic(auto)]

ghost use Rattle.spec.specs.Bundle.{no_lists};
ghost use Rattle.spec.specs.PlanAsk.{inputs_of};
ghost use Rattle.answers.specs.Numbers.{said};
ghost use Rattle.report.specs.Begins.{list_opening, plan_opening, OpensHolding, Rooms, ListRooms, Planned, BeginsReport};
ghost use Rattle.report.specs.Held.{TextRooms, TextsWanted, AskedIs, CheckedIs, NextWanted, HoldsSome, LinesWanted, MakesLines};

use answers::{Numbers, of_refusal, of_reply};
use asks::{plan, texts};
use printing::say_no_work;
use report_bundle::no_lists;
use report_lines::text_lines;
use report_output::{Begun, refuse, refuse_circle};
use slices::bytes::zero_bytes_from;
use spec::Wanted;

// Lines that were made: of so many steps, and so many bytes long.
#[derive(Clone, Copy)]
pub struct Lines {
    pub steps: usize,
    pub bytes: usize,
}

// One reading: the texts of as many of the steps as have room.
fn ask_texts(
    bundle: &[u8],
    steps: &[u32],
    bytes: &mut [u8],
    ends: &mut [u32],
) -> Result<usize, Numbers>
    requires { TextsWanted steps.now bytes.old ends.old }
    ensures { AskedIs bundle.now steps.now bytes.new ends.new result }
{
    texts(bundle, steps, Wanted::Command, bytes, ends).map_err(of_refusal)
}

// "Texts are all checked, in list order": by one reading, where the buffers have room for all. The answer is of how many
// steps, from the first on, they hold the texts: of all, or of none after more than one reading.
fn check_texts(
    bundle: &[u8],
    steps: &[u32],
    bytes: &mut [u8],
    ends: &mut [u32],
) -> Result<usize, Numbers>
    requires { TextRooms bytes.old ends.old }
    ensures { CheckedIs bundle.now steps.now bytes.new ends.new result }
{
    let mut i = 0;
    while i < steps.len() {
        // no `?`: with a `match` the must-fail edit `refused_text_passes` changes the value returned, and not the form
        match ask_texts(bundle, &steps[i..], bytes, ends) {
            Ok(n) => {
                if n == steps.len() {
                    return Ok(n);
                }
                i += n;
            }
            Err(n) => {
                return Err(n);
            }
        }
    }
    Ok(0)
}

// The start of the output for a list.
fn begin_list(
    bundle: &[u8],
    steps: &[u32],
    line: &mut [u8],
    bytes: &mut [u8],
    ends: &mut [u32],
) -> Begun
    requires { ListRooms line.old bytes.old ends.old }
    ensures { OpensHolding (list_opening bundle.now steps.now) bundle.now steps.now line.old result line.new bytes.new ends.new }
{
    if steps.len() == 0 {
        return Begun::Whole(say_no_work(line));
    }
    match check_texts(bundle, steps, bytes, ends) {
        Ok(held) => {
            zero_bytes_from(line, 0);
            Begun::Steps(steps.len(), held)
        }
        Err(n) => refuse(line, bundle, n),
    }
}

// The start of the output for what the plan ask says and its list.
fn begin_planned(
    bundle: &[u8],
    n: Numbers,
    list: &[u32],
    line: &mut [u8],
    bytes: &mut [u8],
    ends: &mut [u32],
) -> Begun
    requires { Planned n list.now line.old bytes.old ends.old }
    ensures { OpensHolding (plan_opening bundle.now (said n) list.now) bundle.now list.now line.old result line.new bytes.new ends.new }
{
    let count = n.value;
    if n.number == 0 {
        return begin_list(bundle, &list[..count], line, bytes, ends);
    }
    if n.number == 14 {
        return refuse_circle(line, &list[..count]);
    }
    refuse(line, bundle, n)
}

// Asks for the plan, with no header lists, and checks all texts. The output is whole in the line, or the line of each
// listed step is to be written.
pub fn begin(
    bundle: &[u8],
    card: &[u8],
    targets: &[u8],
    list: &mut [u32],
    line: &mut [u8],
    bytes: &mut [u8],
    ends: &mut [u32],
) -> Begun
    requires { Rooms list.old line.old bytes.old ends.old }
    ensures { BeginsReport (inputs_of bundle.now card.now targets.now no_lists) list.old line.old result list.new line.new bytes.new ends.new }
{
    let lists = no_lists();
    let n = of_reply(plan(bundle, &lists, card, targets, list));
    begin_planned(bundle, n, list, line, bytes, ends)
}

// Has the texts of the next steps in the buffers, by a reading where none are held: of how many steps.
fn hold_next(bundle: &[u8], steps: &[u32], held: usize, bytes: &mut [u8], ends: &mut [u32]) -> usize
    requires { NextWanted bundle.now steps.now bytes.old ends.old held }
    ensures { HoldsSome bundle.now steps.now bytes.new ends.new result }
{
    if held != 0 {
        return held;
    }
    // all texts are checked, so that none is refused here
    ask_texts(bundle, steps, bytes, ends).unwrap_or(0)
}

// The lines of the steps from `place` on, as many as have their texts in the buffers, once a reading was made for them
// where none are held.
pub fn next_lines(
    bundle: &[u8],
    steps: &[u32],
    place: usize,
    held: usize,
    bytes: &mut [u8],
    ends: &mut [u32],
    out: &mut [u8],
) -> Lines
    requires { LinesWanted bundle.now steps.now bytes.old ends.old out.old place held }
    ensures { MakesLines bundle.now steps.now place result bytes.new ends.new out.old out.new }
{
    let steps_held = hold_next(bundle, &steps[place..], held, bytes, ends);
    let behind = text_lines(place, steps.len(), bytes, &ends[..steps_held], out);
    Lines {
        steps: steps_held,
        bytes: behind,
    }
}
