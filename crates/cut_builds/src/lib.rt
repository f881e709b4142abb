// `build OUTS: RULE INS | IMPLICIT || ORDERONLY`.
#![tactic(auto)]

ghost use Rattle.std.specs.Prelude.{◌≡◌, List, ℕ, ◌≤◌, length, drop};
ghost use Rattle.spec.specs.Forms.{BuildLine, cut_inputs, cut_build};
ghost use Rattle.cut_forms.specs.Inputs.{one_bar, bars_at, cut_order_only, after_implicit, after_inputs};
ghost use Rattle.scan_classes.specs.Table.{classes};
ghost use Rattle.cut_forms.specs.Paths.{PathsAt};
ghost use Rattle.cut_forms.specs.Statements.{BarsAt, HeadAt, StatementAt};

use cut_bindings::rule_name;
use cut_forms::paths::listed;
use cut_forms::{Bars, BuildPlaces, Fault, Head, Statement};
use scan_tokens::gap;

// `||` is read before `|`.
fn bars(l: &[u8], at: usize) -> Bars
    requires { at ≤ length l.now }
    ensures { BarsAt l.now at result }
{
    if l.len() <= at {
        return Bars::LineEnd;
    }
    if l[at] != b'|' {
        return Bars::Other;
    }
    let next = at + 1;
    if next < l.len() && l[next] == b'|' {
        return Bars::Two(next + 1);
    }
    Bars::One(next)
}

// The order-only inputs, up to the line's end.
fn order_only(
    t: &[u8; 256],
    l: &[u8],
    h: Head,
    implicit: usize,
    at: usize,
) -> Result<Statement, Fault>
    requires { (t.now ≡ classes) × (at ≤ length l.now) }
    ensures { (b : BuildLine) (i m : List (List ℕ)) → HeadAt l.now h b i → PathsAt l.now implicit m → StatementAt l.now (cut_order_only b i m (drop at l.now)) result }
{
    let (_, end) = listed(t, l, at)?;
    if end < l.len() {
        return Err(Fault::NoForm);
    }
    Ok(Statement::Build(BuildPlaces {
        outs: h.outs,
        rule: h.rule,
        ins: h.ins,
        implicit,
        order: at,
    }))
}

// What stands after the implicit inputs.
fn after_implicit(
    t: &[u8; 256],
    l: &[u8],
    h: Head,
    implicit: usize,
    at: usize,
) -> Result<Statement, Fault>
    requires { (t.now ≡ classes) × (at ≤ length l.now) }
    ensures { (b : BuildLine) (i m : List (List ℕ)) → HeadAt l.now h b i → PathsAt l.now implicit m → StatementAt l.now (after_implicit b i m (bars_at (drop at l.now))) result }
{
    match bars(l, at) {
        Bars::LineEnd => Ok(Statement::Build(BuildPlaces {
            outs: h.outs,
            rule: h.rule,
            ins: h.ins,
            implicit,
            order: l.len(),
        })),
        Bars::Two(next) => order_only(t, l, h, implicit, next),
        Bars::One(_) | Bars::Other => Err(Fault::NoForm),
    }
}

// The implicit inputs, and what stands after them.
fn implicit(t: &[u8; 256], l: &[u8], h: Head, at: usize) -> Result<Statement, Fault>
    requires { (t.now ≡ classes) × (at ≤ length l.now) }
    ensures { (b : BuildLine) (i : List (List ℕ)) → HeadAt l.now h b i → StatementAt l.now (after_inputs b i (one_bar (drop at l.now))) result }
{
    let (_, end) = listed(t, l, at)?;
    after_implicit(t, l, h, at, end)
}

// What stands after the explicit inputs.
fn after_inputs(t: &[u8; 256], l: &[u8], h: Head, at: usize) -> Result<Statement, Fault>
    requires { (t.now ≡ classes) × (at ≤ length l.now) }
    ensures { (b : BuildLine) (i : List (List ℕ)) → HeadAt l.now h b i → StatementAt l.now (after_inputs b i (bars_at (drop at l.now))) result }
{
    let none = l.len();
    match bars(l, at) {
        Bars::LineEnd => Ok(Statement::Build(BuildPlaces {
            outs: h.outs,
            rule: h.rule,
            ins: h.ins,
            implicit: none,
            order: none,
        })),
        Bars::One(next) => implicit(t, l, h, next),
        Bars::Two(next) => order_only(t, l, h, none, next),
        Bars::Other => Err(Fault::NoForm),
    }
}

// From the rule's name on.
fn cut_inputs(t: &[u8; 256], l: &[u8], outs: usize, from: usize) -> Result<Statement, Fault>
    requires { (t.now ≡ classes) × (from ≤ length l.now) }
    ensures { (os : List (List ℕ)) → PathsAt l.now outs os → StatementAt l.now (cut_inputs os (drop from l.now)) result }
{
    let to = rule_name(t, l, from)?;
    let (_, end) = listed(t, l, to)?;
    let h = Head {
        outs,
        rule: from,
        ins: to,
    };
    after_inputs(t, l, h, end)
}

// A build line, from behind the keyword on.
pub fn cut_build(t: &[u8; 256], l: &[u8], at: usize) -> Result<Statement, Fault>
    requires { (t.now ≡ classes) × (at ≤ length l.now) }
    ensures { StatementAt l.now (cut_build (drop at l.now)) result }
{
    let (any, end) = listed(t, l, at)?;
    if l.len() <= end || l[end] != b':' || !any {
        return Err(Fault::NoForm);
    }
    let from = gap(l, end + 1);
    cut_inputs(t, l, at, from)
}
