// The columns of a read graph: a step's parts of the mentions.
#![tactic(auto)]

ghost use Rattle.std.specs.Prelude.{◌≡◌, ◌^◌, ◌<◌, length, get_or};
ghost use Rattle.hold_columns.specs.Columns.{PartsPlaced, last_end, end_place, end_at, step_start, outs_in, non_order_only_in, inputs_in, maker_at};

use slices::words::at;

// The columns of a read graph that a plan is made from: the files that each step mentions, where its parts end among
// them, which steps are phony, and each file's maker: its step's number and one more, or 0.
#[derive(Clone, Copy)]
pub struct Columns<'a> {
    pub mentions: &'a [u32],
    pub ends: &'a [u32],
    pub phony: &'a [u32],
    pub made: &'a [u32],
}

// How many ends a step has, and which is which: those of its outputs, its inputs, its implicit and its order-only
// inputs.
pub const STEP_ENDS: usize = 4;

pub const OUTS_END: usize = 0;

pub const INS_END: usize = 1;

pub const IMPLICIT_END: usize = 2;

pub const ORDER_ONLY_END: usize = 3;
// where all that a step mentions ends
pub const LAST_END: usize = ORDER_ONLY_END;

// The place of end k of a step among all ends.
pub fn end_place(s: usize, k: usize) -> usize
    requires { end_place s k < 2 ^ 64 }
    ensures { result ≡ end_place s k }
{
    STEP_ENDS * s + k
}

// Where part k of a step ends.
pub fn end_at(ends: &[u32], s: usize, k: usize) -> usize
    requires { end_place s k < length ends.now }
    ensures { result ≡ end_at ends.now s k }
{
    at(ends, end_place(s, k))
}

// The step's inputs of any kind.
pub fn inputs<'a, 'b>(mentions: &'a [u32], ends: &'b [u32], s: usize) -> &'a [u32]
    requires { PartsPlaced mentions.now ends.now s }
    ensures { result.now ≡ inputs_in mentions.now ends.now s }
{
    let from = end_at(ends, s, OUTS_END);
    let to = end_at(ends, s, ORDER_ONLY_END);
    &mentions[from..to]
}

// The step's inputs that are not order-only.
// Its body differs from that of `inputs` by one number: a parameter for it would say less at each call.
pub fn non_order_only<'a, 'b>(mentions: &'a [u32], ends: &'b [u32], s: usize) -> &'a [u32]
    requires { PartsPlaced mentions.now ends.now s }
    ensures { result.now ≡ non_order_only_in mentions.now ends.now s }
{
    let from = end_at(ends, s, OUTS_END);
    let to = end_at(ends, s, IMPLICIT_END);
    &mentions[from..to]
}

// Where the step's outputs start.
fn start(ends: &[u32], s: usize) -> usize
    requires { end_place s last_end < length ends.now }
    ensures { result ≡ step_start ends.now s }
{
    if s == 0 {
        return 0;
    }
    end_at(ends, s - 1, LAST_END)
}

// The step's outputs.
pub fn outs<'a, 'b>(mentions: &'a [u32], ends: &'b [u32], s: usize) -> &'a [u32]
    requires { PartsPlaced mentions.now ends.now s }
    ensures { result.now ≡ outs_in mentions.now ends.now s }
{
    let from = start(ends, s);
    let to = end_at(ends, s, OUTS_END);
    &mentions[from..to]
}

// The maker of the file at place i, as the makers' column has it.
// 0 stands for none, as in the column, which is fixed memory that C can lend.
pub fn maker(fs: &[u32], i: usize, made: &[u32]) -> usize
    requires { (i < length fs.now) × (get_or fs.now i 0 < length made.now) }
    ensures { result ≡ maker_at made.now fs.now i }
{
    at(made, at(fs, i))
}

// The time of a file.
pub fn time(times: &[u64], f: usize) -> u64
    requires { f < length times.now }
    ensures { result ≡ get_or times.now f 0 }
{
    times[f]
}
