// Indented lines: "An indented line belongs to the open rule or build block; with none open it is refused with 4."
#![tactic(auto)]

ghost use Rattle.lists.specs.Lent.{Spare, Leaves};
ghost use Rattle.spec.specs.Manifest.{read_indented};
ghost use Rattle.scan_cursor.specs.Spans.{line_of};
ghost use Rattle.hold_reading.specs.Binds.{Meets};
ghost use Rattle.apply_indented.specs.Asks.{KeyAsks, IndentedAsks};

use apply_rules::add_key;
use apply_variables::add_to_block;
use cut_refusals::cut_block_line;
use hold_reading::{Counts, Open, State};
use scan_raw::texts::raw_value;
use spec::Refusal;

// In the block of the rule whose line starts at `head`, and which is declared at an entry of the table of bindings.
fn read_key(
    t: &[u8; 256],
    start: usize,
    l: &[u8],
    ended: bool,
    head: usize,
    entry: usize,
    texts: &mut [u8],
    bind: &mut [u32],
    c: Counts,
) -> Result<State, Refusal>
    requires { KeyAsks t.now start l.now texts.old bind.old c (Open.Rule head entry) }
    ensures { Leaves ((Spare texts.old texts.new) × (Spare bind.old bind.new)) (Meets texts.old bind.old c (Open.Rule head entry) (read_indented (line_of start l.now ended)) texts.new bind.new result) }
{
    let (from, to, at) = cut_block_line(t, start, l, ended)?;
    let raw = raw_value(l, at);
    add_key(start, head, entry, &l[from..to], raw, texts, bind, c)
}

// In the newest step's block. The word buffer is working space.
fn read_setting(
    t: &[u8; 256],
    start: usize,
    l: &[u8],
    ended: bool,
    texts: &mut [u8],
    bind: &mut [u32],
    word: &mut [u8],
    c: Counts,
) -> Result<State, Refusal>
    requires { IndentedAsks t.now start l.now texts.old bind.old word.old c Open.Step }
    ensures { Leaves ((Spare texts.old texts.new) × (Spare bind.old bind.new) × (Spare word.old word.new)) (Meets texts.old bind.old c Open.Step (read_indented (line_of start l.now ended)) texts.new bind.new result) }
{
    let (from, to, at) = cut_block_line(t, start, l, ended)?;
    let raw = raw_value(l, at);
    add_to_block(t, start, &l[from..to], raw, texts, bind, word, c)
}

// With no block open it is refused whatever it holds.
pub fn read_indented(
    t: &[u8; 256],
    start: usize,
    l: &[u8],
    ended: bool,
    texts: &mut [u8],
    bind: &mut [u32],
    word: &mut [u8],
    c: Counts,
    block: Open,
) -> Result<State, Refusal>
    requires { IndentedAsks t.now start l.now texts.old bind.old word.old c block }
    ensures { Leaves ((Spare texts.old texts.new) × (Spare bind.old bind.new) × (Spare word.old word.new)) (Meets texts.old bind.old c block (read_indented (line_of start l.now ended)) texts.new bind.new result) }
{
    match block {
        Open::Nothing => Err(Refusal::BadLine(start)),
        Open::Rule(head, entry) => read_key(t, start, l, ended, head, entry, texts, bind, c),
        Open::Step => read_setting(t, start, l, ended, texts, bind, word, c),
    }
}
