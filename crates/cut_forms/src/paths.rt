// The paths of a list, and `default PATHS`.
ghost use Rattle.std.specs.Prelude.{◌≡◌, ◌≤◌, length, drop};
ghost use Rattle.spec.specs.Forms.{cut_default};
ghost use Rattle.scan_classes.specs.Table.{classes};
ghost use Rattle.cut_forms.specs.Paths.{ListedAt, NextListed};
ghost use Rattle.cut_forms.specs.Statements.{StatementAt};

use crate::{Fault, Statement};
use scan_raw::{NextPath, texts};

// The list that starts at a place, its dollars checked: whether it has a path, and where it ends.
pub fn listed(t: &[u8; 256], l: &[u8], at: usize) -> Result<(bool, usize), Fault>
    requires { (t.now ≡ classes) × (at ≤ length l.now) }
    ensures { ListedAt l.now at result }
{
    let mut any = false;
    let mut i = at;
    // no `while let`: the two answers that end the list say different things
    loop {
        match texts::next_path(t, l, i) {
            NextPath::Path(_, to) => {
                any = true;
                i = to;
            }
            NextPath::Stop(end) => {
                return Ok((any, end));
            }
            NextPath::BadDollar(p) => {
                return Err(Fault::BadDollar(p));
            }
        }
    }
}

// The next path of a list that was found sound, from place to place, for a later pass over it; None at the list's end.
pub fn next_listed(t: &[u8; 256], l: &[u8], at: usize) -> Option<(usize, usize)>
    requires { (t.now ≡ classes) × (at ≤ length l.now) }
    ensures { NextListed l.now at result }
{
    match texts::next_path(t, l, at) {
        NextPath::Path(from, to) => Some((from, to)),
        NextPath::Stop(_) | NextPath::BadDollar(_) => None,
    }
}

// `default PATHS`, from behind the keyword on.
pub fn cut_default(t: &[u8; 256], l: &[u8], at: usize) -> Result<Statement, Fault>
    requires { (t.now ≡ classes) × (at ≤ length l.now) }
    ensures { StatementAt l.now (cut_default (drop at l.now)) result }
{
    let (any, end) = listed(t, l, at)?;
    if !any || end < l.len() {
        return Err(Fault::NoForm);
    }
    Ok(Statement::Default(at))
}
