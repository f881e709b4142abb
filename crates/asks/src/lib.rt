// The three asks on lent bytes. None asks anything of what it is given: it refuses.
#![tactic(auto)]

ghost use Rattle.spec.specs.Answers.{plan_says, text_says};
ghost use Rattle.spec.specs.PlanAsk.{inputs_of};
ghost use Rattle.spec.specs.Demands.{PlanDemands, TextDemands};
ghost use Rattle.text_batch.specs.TextsPromise.{TextsPromise};

use ask_plan::plan_buffered;
use ask_text::text_buffered;
use ask_texts::texts_buffered;
use spec::limits::{LIST, TEXT};
use spec::{Refusal, Wanted};

// The list of the stale needed command steps for a manifest, the header lists of its steps, a card of file times and a
// list of targets.
pub fn plan(
    manifest: &[u8],
    headers: &[u8],
    card: &[u8],
    targets: &[u8],
    list: &mut [u32],
) -> Result<usize, Refusal>
    ensures { PlanDemands (inputs_of manifest.now card.now targets.now headers.now) list.old (plan_says result) list.new }
{
    if list.len() < LIST {
        return Err(Refusal::ShortBuffer);
    }
    plan_buffered(manifest, headers, card, targets, list)
}

// The text of a step's command or description.
pub fn text(
    manifest: &[u8],
    step: usize,
    wanted: Wanted,
    buffer: &mut [u8],
) -> Result<usize, Refusal>
    ensures { TextDemands manifest.now step wanted buffer.old (text_says result) buffer.new }
{
    if buffer.len() < TEXT {
        return Err(Refusal::ShortBuffer);
    }
    text_buffered(manifest, step, wanted, buffer)
}

// The texts of as many leading steps of a list as have room in `bytes`, end to end, and where each ends.
pub fn texts(
    manifest: &[u8],
    steps: &[u32],
    wanted: Wanted,
    bytes: &mut [u8],
    ends: &mut [u32],
) -> Result<usize, Refusal>
    ensures { TextsPromise manifest.now steps.now wanted bytes.old ends.old result bytes.new ends.new }
{
    if bytes.len() < TEXT {
        return Err(Refusal::ShortBuffer);
    }
    texts_buffered(manifest, steps, wanted, bytes, ends)
}
