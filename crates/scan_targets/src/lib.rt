// The target list: whether it has the form of one, and its names one after another, as parts of the caller's slice.
#![tactic(auto)]

ghost use Rattle.std.specs.Prelude.{◌≡◌, [], ◌≤◌, length, drop};
ghost use Rattle.lists.specs.Runs.{Reads, after_run};
ghost use Rattle.spec.specs.Targets.{malformed, targets_from};
ghost use Rattle.scan_targets.specs.Next.{other, next_in};

use spec::limits::{PATH, TARGETS};

// What stands at a place where a name may start.
#[derive(Clone, Copy)]
pub enum NextTarget {
    // No name: the list ends.
    End,
    // A name that is empty or too long.
    Bad,
    // A name, and the place of the newline that ends it.
    Name(usize),
}

// Whether the list is too long or its last name is unended: it is bad at place 0, before its names are looked at.
pub fn bad_form(t: &[u8]) -> bool
    ensures { result ≡ malformed t.now }
{
    if TARGETS < t.len() {
        return true;
    }
    if t.len() == 0 {
        return false;
    }
    t[t.len() - 1] != b'\n'
}

// The name that starts at `from`: it is the part from there to the place that is returned, and the next one starts
// after that.
pub fn name_at(t: &[u8], from: usize) -> NextTarget
    ensures { result ≡ next_in (targets_from from from [] (drop from t.now)) }
{
    if t.len() < from {
        return NextTarget::End;
    }
    let end = line_end(t, from);
    if t.len() <= end {
        return NextTarget::End;
    }
    if end - from < 1 {
        return NextTarget::Bad;
    }
    if PATH < end - from {
        return NextTarget::Bad;
    }
    NextTarget::Name(end)
}

// The place of the first newline from `from` on, or the length.
fn line_end(t: &[u8], from: usize) -> usize
    requires { from ≤ length t.now }
    ensures { Reads (after_run other) t.now from result }
{
    for i in from..t.len() {
        if t[i] == b'\n' {
            return i;
        }
    }
    t.len()
}
