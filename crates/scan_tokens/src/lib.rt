// Spaces, joins and names in a line.
#![tactic(auto)]

ghost use Rattle.std.specs.Prelude.{◌≡◌, ◌≤◌, length};
ghost use Rattle.lists.specs.Runs.{after_run, Reads};
ghost use Rattle.spec.specs.Bytes.{short_byte, class_of};
ghost use Rattle.spec.specs.Lines.{is_space};
ghost use Rattle.spec.specs.Forms.{gap, after_name};
ghost use Rattle.scan_classes.specs.Table.{classes, class_up_to};

pub fn spaces(s: &[u8], from: usize) -> usize
    requires { from ≤ length s.now }
    ensures { Reads (after_run is_space) s.now from result }
{
    for i in from..s.len() {
        if s[i] != b' ' {
            return i;
        }
    }
    s.len()
}

// Spaces and joins, up to the next token.
pub fn gap(s: &[u8], from: usize) -> usize
    requires { from ≤ length s.now }
    ensures { Reads gap s.now from result }
{
    let mut i = from;
    // A turn goes on by one byte or by two, so that no `for` counts it.
    while i < s.len() {
        let b = s[i];
        if b == b' ' {
            i += 1;
        } else {
            let next = i + 1;
            if b != b'$' || s.len() <= next || s[next] != b'\n' {
                return i;
            }
            i += 2;
        }
    }
    i
}

// The longest run of bytes of the classes from SHORT to `last`.
fn class_run(t: &[u8; 256], s: &[u8], from: usize, last: u8) -> usize
    requires { (t.now ≡ classes) × (from ≤ length s.now) }
    ensures { Reads (after_run (λ b. class_up_to last (class_of b))) s.now from result }
{
    for i in from..s.len() {
        let k = scan_classes::class_in(t, s[i]);
        if k < scan_classes::SHORT || last < k {
            return i;
        }
    }
    s.len()
}

// A name, which may be empty.
pub fn name_end(t: &[u8; 256], s: &[u8], from: usize) -> usize
    requires { (t.now ≡ classes) × (from ≤ length s.now) }
    ensures { Reads after_name s.now from result }
{
    class_run(t, s, from, scan_classes::DOT)
}

// The name behind a `$`, which takes no dot.
// It and `name_end` are one function, `class_run`, by two names of the manual.
pub fn short_name(t: &[u8; 256], s: &[u8], from: usize) -> usize
    requires { (t.now ≡ classes) × (from ≤ length s.now) }
    ensures { Reads (after_run short_byte) s.now from result }
{
    class_run(t, s, from, scan_classes::SHORT)
}
