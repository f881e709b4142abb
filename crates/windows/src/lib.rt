// Slices of bytes compared by eight bytes at a time, since what is compared often begins alike.
#![tactic(auto)]

ghost use Rattle.std.specs.Prelude.{◌≡◌, ◌+◌, ◌≤◌, min, length};
ghost use Rattle.lists.specs.Bytes.{eq_bytes};
ghost use Rattle.lists.specs.Order.{order_bytes};
ghost use Rattle.windows.specs.Windows.{High, AlikeToEnd};

use std::cmp::Ordering;

// How two slices compare where the shorter has n bytes, eight at least. The last eight may overlap the eight before.
pub fn compare_long(a: &[u8], b: &[u8], n: usize) -> Ordering
    requires { (n ≡ min (length a.now) (length b.now)) × (8 ≤ n) }
    ensures { result ≡ order_bytes a.now b.now }
{
    let mut i = 0;
    while i + 8 <= n {
        let x = high_long(a, i);
        let y = high_long(b, i);
        if x != y {
            return x.cmp(&y);
        }
        i += 8;
    }
    compare_end(a, b, n)
}

// Whether two slices of one length, eight bytes at least, are equal.
pub fn equal_long(a: &[u8], b: &[u8]) -> bool
    requires { (length a.now ≡ length b.now) × (8 ≤ length a.now) }
    ensures { result ≡ eq_bytes a.now b.now }
{
    compare_long(a, b, a.len()).is_eq()
}

// How they compare where the shorter has n bytes, and at most its last eight differ.
fn compare_end(a: &[u8], b: &[u8], n: usize) -> Ordering
    requires { AlikeToEnd a.now b.now n }
    ensures { result ≡ order_bytes a.now b.now }
{
    let x = high_long(a, n - 8);
    let y = high_long(b, n - 8);
    x.cmp(&y).then(a.len().cmp(&b.len()))
}

// The number in the eight bytes at `at` with the first byte highest, which orders them as bytes are ordered.
fn high_long(s: &[u8], at: usize) -> u64
    requires { at + 8 ≤ length s.now }
    ensures { High s.now at 8 result }
{
    let high = high_word(s, at);
    let low = high_word(s, at + 4);
    high as u64 * 4294967296 + low as u64
}

fn high_word(s: &[u8], at: usize) -> usize
    requires { at + 4 ≤ length s.now }
    ensures { High s.now at 4 result }
{
    u32::from_be_bytes([s[at], s[at + 1], s[at + 2], s[at + 3]]) as usize
}
