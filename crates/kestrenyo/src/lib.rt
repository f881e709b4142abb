// The three asks and the status line for C and Rust: numbers and slices alone. None asks anything of its caller, and
// each says what documents 01 and 02 say in three numbers.
#![tactic(auto)]

ghost use Rattle.std.specs.Prelude.{◌≡◌, [], length};
ghost use Rattle.spec.specs.Answers.{plain};
ghost use Rattle.spec.specs.Bundle.{bundle_texts};
ghost use Rattle.spec.specs.PlanAsk.{inputs_of};
ghost use Rattle.spec.specs.Demands.{PlanDemands, TextDemands};
ghost use Rattle.answers.specs.Numbers.{said};
ghost use Rattle.answer_places.specs.Places.{HasPlace};
ghost use Rattle.text_batch.specs.TextsAsk.{texts_ask};
ghost use Rattle.text_batch.specs.TextsPromise.{TextsMeets};
ghost use Rattle.status_record.specs.Record.{first_status, moved_to, start_at, finish_at};
ghost use Rattle.status_line.specs.LineAsk.{line_outcome, StatusLineMeets};
ghost use Rattle.status_numbers.specs.Numbers.{status_held, record_of};
ghost use Rattle.kestrenyo.specs.Tells.{Tells};
ghost use Rattle.kestrenyo.specs.Wants.{wanted_of};

use answer_places::locate;
use answers::{Numbers, Placed, of_reply};
use asks::{plan, text, texts};
use spec::Wanted;
use status_numbers::{
    StatusRecord, first_record, record_finished, record_line, record_moved, record_started,
};

// What stands in no text.
fn outside(n: Numbers) -> Placed
    ensures { HasPlace (said n).number (plain (said n).value) result }
{
    Placed {
        number: n.number,
        text: 0,
        value: n.value,
    }
}

// The plan ask: 0 and the number of steps listed, or a refusal's number and place.
#[unsafe(no_mangle)]
pub extern "C" fn kestrenyo_plan(
    bundle: &[u8],
    headers: &[u8],
    card: &[u8],
    targets: &[u8],
    list: &mut [u32],
) -> Placed
    ensures { Tells (bundle_texts bundle.now) (λ said. PlanDemands (inputs_of bundle.now card.now targets.now headers.now) list.old said list.new) result }
{
    locate(of_reply(plan(bundle, headers, card, targets, list)), bundle)
}

// What a number asks for.
fn wanted_of(n: usize) -> Wanted
    ensures { result ≡ wanted_of n }
{
    if n == 0 {
        return Wanted::Command;
    }
    Wanted::Description
}

// The text ask, of a command where `wanted` is 0 and else of a description: 0 and the number of bytes written, or a
// refusal's number and place.
#[unsafe(no_mangle)]
pub extern "C" fn kestrenyo_text(
    bundle: &[u8],
    step: usize,
    wanted: usize,
    buffer: &mut [u8],
) -> Placed
    ensures { Tells (bundle_texts bundle.now) (λ said. TextDemands bundle.now step (wanted_of wanted) buffer.old said buffer.new) result }
{
    locate(
        of_reply(text(bundle, step, wanted_of(wanted), buffer)),
        bundle,
    )
}

// The texts ask, of commands where `wanted` is 0 and else of descriptions: 0 and the number of texts written, or a
// refusal's number and place.
#[unsafe(no_mangle)]
pub extern "C" fn kestrenyo_texts(
    bundle: &[u8],
    steps: &[u32],
    wanted: usize,
    bytes: &mut [u8],
    ends: &mut [u32],
) -> Placed
    ensures { Tells (bundle_texts bundle.now) (λ said. TextsMeets (texts_ask bundle.now steps.now (wanted_of wanted) (length bytes.old) (length ends.old)) bytes.old ends.old said bytes.new ends.new) result }
{
    locate(
        of_reply(texts(bundle, steps, wanted_of(wanted), bytes, ends)),
        bundle,
    )
}

// The status before the first event, of so many steps and so many jobs at once.
#[unsafe(no_mangle)]
pub extern "C" fn kestrenyo_status(total: u32, jobs: u32) -> StatusRecord
    ensures { result ≡ record_of (first_status total jobs) }
{
    first_record(total, jobs)
}

// A step starts.
#[unsafe(no_mangle)]
pub extern "C" fn kestrenyo_status_started(status: StatusRecord, milliseconds: u64) -> StatusRecord
    ensures { result ≡ record_of (start_at (status_held status) milliseconds) }
{
    record_started(status, milliseconds)
}

// A step finishes.
#[unsafe(no_mangle)]
pub extern "C" fn kestrenyo_status_finished(status: StatusRecord, milliseconds: u64) -> StatusRecord
    ensures { result ≡ record_of (finish_at (status_held status) milliseconds) }
{
    record_finished(status, milliseconds)
}

// The clock moved to the time of printing.
#[unsafe(no_mangle)]
pub extern "C" fn kestrenyo_status_at(status: StatusRecord, milliseconds: u64) -> StatusRecord
    ensures { result ≡ record_of (moved_to (status_held status) milliseconds) }
{
    record_moved(status, milliseconds)
}

// The line of a status as it stands: 0 and the number of bytes written, or a refusal's number and place.
#[unsafe(no_mangle)]
pub extern "C" fn kestrenyo_status_line(
    status: StatusRecord,
    format: &[u8],
    buffer: &mut [u8],
) -> Placed
    ensures { Tells [] (λ said. StatusLineMeets (line_outcome (status_held status) format.now (length buffer.old)) buffer.old said buffer.new) result }
{
    outside(record_line(status, format, buffer))
}
