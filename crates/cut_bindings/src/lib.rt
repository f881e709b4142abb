// `rule NAME` and `NAME = value`.
#![tactic(auto)]

ghost use Rattle.std.specs.Prelude.{◌≡◌, ◌≤◌, length, drop};
ghost use Rattle.lists.specs.Parts.{part};
ghost use Rattle.lists.specs.Runs.{Reads};
ghost use Rattle.spec.specs.Forms.{gap, name_of, after_name, rule_word, cut_rule, cut_value, cut_binding};
ghost use Rattle.scan_classes.specs.Table.{classes};
ghost use Rattle.cut_forms.specs.Statements.{NamedAt, StatementAt, AssignmentAt};

use cut_forms::{Fault, Statement};
use scan_classes::{EQUALS, class_in};
use scan_keywords::{Word, key_word, rule_word};
use scan_raw::texts::{bad_dollar, raw_value};
use scan_tokens::{gap, name_end};

// The name of a rule.
pub fn rule_name(t: &[u8; 256], l: &[u8], from: usize) -> Result<usize, Fault>
    requires { (t.now ≡ classes) × (from ≤ length l.now) }
    ensures { NamedAt l.now from (rule_word (name_of (drop from l.now))) result }
{
    let to = name_end(t, l, from);
    match rule_word(&l[from..to]) {
        Word::Name => Ok(to),
        Word::NoForm => Err(Fault::NoForm),
        Word::NotYet => Err(Fault::NotYet),
    }
}

// `rule NAME`, from behind the keyword on.
pub fn cut_rule(t: &[u8; 256], l: &[u8], at: usize) -> Result<Statement, Fault>
    requires { (t.now ≡ classes) × (at ≤ length l.now) }
    ensures { StatementAt l.now (cut_rule (drop at l.now)) result }
{
    let from = gap(l, at);
    let to = rule_name(t, l, from)?;
    let end = gap(l, to);
    if end < l.len() {
        return Err(Fault::NoForm);
    }
    Ok(Statement::Rule(from, to))
}

// `NAME = value`, from behind the name on: where the name starts and ends, and the place behind the `=`.
fn cut_value(
    t: &[u8; 256],
    l: &[u8],
    from: usize,
    to: usize,
) -> Result<(usize, usize, usize), Fault>
    requires { (t.now ≡ classes) × (from ≤ to) × (to ≤ length l.now) }
    ensures { AssignmentAt l.now (cut_value (part l.now from to) (gap (drop to l.now))) result }
{
    let at = gap(l, to);
    if l.len() <= at || class_in(t, l[at]) != EQUALS {
        return Err(Fault::NoForm);
    }
    let value = at + 1;
    let raw = raw_value(l, value);
    match bad_dollar(t, raw) {
        None => Ok((from, to, value)),
        Some(p) => Err(Fault::BadDollar(l.len() - raw.len() + p)),
    }
}

// `NAME = value`, whose name is known.
pub fn cut_binding(
    t: &[u8; 256],
    l: &[u8],
    from: usize,
    to: usize,
) -> Result<(usize, usize, usize), Fault>
    requires { (t.now ≡ classes) × Reads after_name l.now from to }
    ensures { AssignmentAt l.now (cut_binding (drop from l.now)) result }
{
    match key_word(&l[from..to]) {
        Word::Name => cut_value(t, l, from, to),
        Word::NoForm => Err(Fault::NoForm),
        Word::NotYet => Err(Fault::NotYet),
    }
}
