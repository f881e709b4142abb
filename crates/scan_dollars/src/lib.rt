// What a `$` begins: an escaped byte, a join, a name, or nothing sound.
#![tactic(auto)]

ghost use Rattle.std.specs.Prelude.{◌≡◌, ◌≤◌, length, drop};
ghost use Rattle.spec.specs.Forms.{name_of, after_name};
ghost use Rattle.scan_classes.specs.Table.{classes};
ghost use Rattle.spec.specs.Dollars.{element, braced};
ghost use Rattle.scan_dollars.specs.Element.{TellsElement, PastAt};

// What a `$` begins, and where the bytes after it start.
#[derive(Clone, Copy)]
pub enum Escape {
    // `$$`, `$ ` or `$:`: the byte that it gives
    Byte(u8, usize),
    // a join, with the next line's leading spaces
    Join(usize),
    // `$name` or `${name}`: where the name starts and where it ends
    Name(usize, usize, usize),
    Bad,
}

// The name and the closing brace that follow `${`. Each byte's class is asked for once, and the class that ends the
// name tells whether it is closed. `dollar` is inlined into all that read dollars as long as it is this short: paths
// of dollars take 1.7 times as long where it is not.
fn braced(t: &[u8; 256], s: &[u8], from: usize) -> Escape
    requires { (t.now ≡ classes) × (from ≤ length s.now) }
    ensures { TellsElement s.now from (braced (name_of (drop from s.now)) (after_name (drop from s.now))) result }
{
    for i in from..s.len() {
        let k = scan_classes::class_in(t, s[i]);
        if k == scan_classes::CLOSE_BRACE {
            if i <= from {
                return Escape::Bad;
            }
            let next = i + 1;
            return Escape::Name(from, i, next);
        }
        if k < scan_classes::SHORT || scan_classes::DOT < k {
            return Escape::Bad;
        }
    }
    Escape::Bad
}

// What the `$` before `at` begins.
pub fn dollar(t: &[u8; 256], s: &[u8], at: usize) -> Escape
    requires { (t.now ≡ classes) × (at ≤ length s.now) }
    ensures { TellsElement s.now at (element (drop at s.now)) result }
{
    if s.len() <= at {
        return Escape::Bad;
    }
    let b = s[at];
    let next = at + 1;
    match scan_classes::class_in(t, b) {
        scan_classes::SHORT => {
            let end = scan_tokens::short_name(t, s, at);
            Escape::Name(at, end, end)
        }
        scan_classes::OPEN_BRACE => braced(t, s, next),
        scan_classes::NEWLINE => Escape::Join(scan_tokens::spaces(s, next)),
        // each by itself, so that the compiler's table has them: by one pattern for the three it tests once more
        scan_classes::DOLLAR => Escape::Byte(b, next),
        scan_classes::SPACE => Escape::Byte(b, next),
        scan_classes::COLON => Escape::Byte(b, next),
        _ => Escape::Bad,
    }
}

// Where the bytes after what the `$` before `at` begins start, None if nothing sound does.
pub fn past(t: &[u8; 256], s: &[u8], at: usize) -> Option<usize>
    requires { (t.now ≡ classes) × (at ≤ length s.now) }
    ensures { PastAt s.now at result }
{
    match dollar(t, s, at) {
        Escape::Byte(_, next) | Escape::Join(next) | Escape::Name(_, _, next) => Some(next),
        Escape::Bad => None,
    }
}
