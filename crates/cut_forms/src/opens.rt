// `include PATH` and `subninja PATH`.
ghost use Rattle.std.specs.Prelude.{◌≡◌, ◌≤◌, length, drop};
ghost use Rattle.spec.specs.Forms.{cut_open};
ghost use Rattle.scan_classes.specs.Table.{classes};
ghost use Rattle.cut_forms.specs.Statements.{StatementAt};

use crate::{Fault, Statement};
use scan_raw::{NextPath, texts};
use scan_tokens::gap;

// From behind the keyword on: one path, and nothing behind it. A bad `$` behind the path is no 5, since the path is
// all that fits.
pub fn cut_open(t: &[u8; 256], l: &[u8], at: usize, sub: bool) -> Result<Statement, Fault>
    requires { (t.now ≡ classes) × (at ≤ length l.now) }
    ensures { StatementAt l.now (cut_open sub (drop at l.now)) result }
{
    match texts::next_path(t, l, at) {
        NextPath::Path(from, to) => {
            let end = gap(l, to);
            if end < l.len() {
                return Err(Fault::NoForm);
            }
            Ok(Statement::Open(sub, from, to))
        }
        NextPath::Stop(_) => Err(Fault::NoForm),
        NextPath::BadDollar(p) => Err(Fault::BadDollar(p)),
    }
}
