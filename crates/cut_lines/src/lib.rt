// A line cut into its form by its bytes alone: refusals 4, 5 and 6. A line is lent without the newline that ends it.
#![tactic(auto)]

ghost use Rattle.std.specs.Prelude.{◌≡◌};
ghost use Rattle.spec.specs.Forms.{cut_statement, cut_indented};
ghost use Rattle.scan_classes.specs.Table.{classes};
ghost use Rattle.cut_forms.specs.Statements.{StatementAt, AssignmentAt};

use byte_order::equal;
use cut_bindings::{cut_binding, cut_rule};
use cut_builds::cut_build;
use cut_forms::opens::cut_open;
use cut_forms::paths::cut_default;
use cut_forms::{Fault, Statement};
use scan_tokens::{name_end, spaces};

// A line without indent; a keyword at its start always begins its statement.
pub fn cut_statement(t: &[u8; 256], l: &[u8]) -> Result<Statement, Fault>
    requires { t.now ≡ classes }
    ensures { StatementAt l.now (cut_statement l.now) result }
{
    let end = name_end(t, l, 0);
    let w = &l[..end];
    if equal(w, b"rule") {
        return cut_rule(t, l, end);
    }
    if equal(w, b"build") {
        return cut_build(t, l, end);
    }
    if equal(w, b"default") {
        return cut_default(t, l, end);
    }
    if equal(w, b"include") {
        return cut_open(t, l, end, false);
    }
    if equal(w, b"subninja") {
        return cut_open(t, l, end, true);
    }
    let (from, to, at) = cut_binding(t, l, 0, end)?;
    Ok(Statement::Binding(from, to, at))
}

// An indented line: where its key starts and ends, and the place behind the `=`. In a block the first word is always a
// key.
pub fn cut_indented(t: &[u8; 256], l: &[u8]) -> Result<(usize, usize, usize), Fault>
    requires { t.now ≡ classes }
    ensures { AssignmentAt l.now (cut_indented l.now) result }
{
    let from = spaces(l, 0);
    let to = name_end(t, l, from);
    cut_binding(t, l, from, to)
}
