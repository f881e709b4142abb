// The packed file of cases, as `pack` of second/ writes it: its parts read one after another, and an answer with the
// whole of its lent buffer compared with what is expected.
#![tactic(auto)]

ghost use Rattle.std.specs.Prelude.{◌≡◌, true, ◌≤◌, length, IfSome};
ghost use Rattle.lists.specs.Lent.{Spare};
ghost use Rattle.test_packed.specs.Parts.{PartsBehind};

use answers::Placed;
use byte_order::equal;
use scan_numbers::word;
use slices::words::at;

// An expected answer; its bytes are the first `length` ones of the buffer that it was read into.
#[derive(Clone, Copy)]
struct Expected {
    number: usize,
    text: usize,
    value: usize,
    length: usize,
}

// What an ask is: 0 the plan, 1 a step's command, 2 its description; the length of the lent buffer, and how many
// answers are right.
#[derive(Clone, Copy)]
pub struct Ask {
    pub kind: usize,
    pub step: usize,
    pub room: usize,
    pub answers: usize,
}

// Where a case's name, bundle, header lists, card and target list end that lie one behind another, and how many asks
// follow them.
#[derive(Clone, Copy)]
pub struct CaseHead {
    pub name: usize,
    pub bundle: usize,
    pub headers: usize,
    pub card: usize,
    pub targets: usize,
    pub asks: usize,
}

// Reads n bytes, and tells whether they came.
pub fn read_part(fd: i32, buf: &mut [u8], n: usize) -> bool
    ensures { result ≡ true → n ≤ length buf.new }
{
    if buf.len() < n {
        return false;
    }
    let got = io::read_full(fd, &mut buf[..n]);
    got == n
}

// Does the buffer hold these bytes, and zeros beyond.
fn holds_bytes(buf: &[u8], bytes: &[u8]) -> bool {
    let n = bytes.len();
    if buf.len() < n {
        return false;
    }
    equal(&buf[..n], bytes) && buf[n..].iter().all(|&b| b == 0)
}

// Does the list hold the numbers that these bytes are, four each, and zeros beyond.
fn holds_words(list: &[u32], bytes: &[u8]) -> bool {
    let n = bytes.len() / 4;
    if list.len() < n {
        return false;
    }
    for i in 0..list.len() {
        let right = if i < n { word(bytes, 4 * i) } else { 0 };
        if at(list, i) != right {
            return false;
        }
    }
    true
}

// The next expected answer, whose bytes are read into `bytes`; `None` where the packed file is cut off.
fn read_expected(fd: i32, bytes: &mut [u8]) -> Option<Expected>
    ensures { IfSome result (λ e. e.length ≤ length bytes.new) }
{
    let mut head = [0u8; 20];
    if !read_part(fd, &mut head, 20) {
        return None;
    }
    let length = word(&head, 16);
    if !read_part(fd, bytes, length) {
        return None;
    }
    Some(Expected {
        number: word(&head, 0),
        text: word(&head, 4),
        value: word(&head, 8) + word(&head, 12) * 4294967296,
        length,
    })
}

fn is_said(e: Expected, n: Placed) -> bool {
    e.number == n.number && e.text == n.text && e.value == n.value
}

// Is the answer the next one of those expected, which is read into `bytes`: working space. `None` where the packed
// file is cut off.
fn meets(
    fd: i32,
    n: Placed,
    is_plan: bool,
    list: &[u32],
    buf: &[u8],
    bytes: &mut [u8],
) -> Option<bool>
    ensures { Spare bytes.old bytes.new }
{
    let e = read_expected(fd, bytes)?;
    let right = &bytes[..e.length];
    Some(
        is_said(e, n)
            && if is_plan {
                holds_words(list, right)
            } else {
                holds_bytes(buf, right)
            },
    )
}

// Is it one of those expected, which are all read. `None` where the packed file is cut off.
pub fn check(
    fd: i32,
    count: usize,
    n: Placed,
    is_plan: bool,
    list: &[u32],
    buf: &[u8],
    bytes: &mut [u8],
) -> Option<bool>
    ensures { Spare bytes.old bytes.new }
{
    let mut yes = false;
    for _ in 0..count {
        if meets(fd, n, is_plan, list, buf, bytes)? {
            yes = true;
        }
    }
    Some(yes)
}

// The next ask; `None` where the packed file is cut off.
pub fn read_ask(fd: i32) -> Option<Ask> {
    let mut head = [0u8; 20];
    if !read_part(fd, &mut head, 20) {
        return None;
    }
    Some(Ask {
        kind: word(&head, 0),
        step: word(&head, 4) + word(&head, 8) * 4294967296,
        room: word(&head, 12),
        answers: word(&head, 16),
    })
}

// The next case; `None` where the packed file is cut off.
pub fn read_head(fd: i32) -> Option<CaseHead> {
    let mut head = [0u8; 24];
    if !read_part(fd, &mut head, 24) {
        return None;
    }
    Some(CaseHead {
        name: word(&head, 0),
        bundle: word(&head, 4),
        headers: word(&head, 8),
        card: word(&head, 12),
        targets: word(&head, 16),
        asks: word(&head, 20),
    })
}

// Do the parts of a case lie one behind another.
pub fn is_sound(h: CaseHead) -> bool
    ensures { result ≡ true → PartsBehind h h.targets }
{
    h.name <= h.bundle && h.bundle <= h.headers && h.headers <= h.card && h.card <= h.targets
}
