// Two slices of bytes: whether they are equal, and which comes first.
#![tactic(auto)]

ghost use Rattle.std.specs.Prelude.{◌≡◌, min, length};
ghost use Rattle.lists.specs.Bytes.{eq_bytes, less_bytes};
ghost use Rattle.lists.specs.Order.{order_bytes};

use std::cmp::Ordering;
use windows::{compare_long, equal_long};

pub fn equal(a: &[u8], b: &[u8]) -> bool
    ensures { result ≡ eq_bytes a.now b.now }
{
    if a.len() != b.len() {
        return false;
    }
    if a.len() < 8 {
        return equal_short(a, b);
    }
    equal_long(a, b)
}

// Whether two slices of one length are equal, byte by byte.
fn equal_short(a: &[u8], b: &[u8]) -> bool
    requires { length a.now ≡ length b.now }
    ensures { result ≡ eq_bytes a.now b.now }
{
    for i in 0..a.len() {
        if a[i] != b[i] {
            return false;
        }
    }
    true
}

// The lesser of two lengths.
pub fn lesser(x: usize, y: usize) -> usize
    ensures { result ≡ min x y }
{
    x.min(y)
}

pub fn compare(a: &[u8], b: &[u8]) -> Ordering
    ensures { result ≡ order_bytes a.now b.now }
{
    let n = lesser(a.len(), b.len());
    if n < 8 {
        return compare_short(a, b, n);
    }
    compare_long(a, b, n)
}

// How two slices compare where the shorter has n bytes, byte by byte.
fn compare_short(a: &[u8], b: &[u8], n: usize) -> Ordering
    requires { n ≡ min (length a.now) (length b.now) }
    ensures { result ≡ order_bytes a.now b.now }
{
    for i in 0..n {
        let x = a[i];
        let y = b[i];
        if x != y {
            return x.cmp(&y);
        }
    }
    a.len().cmp(&b.len())
}

pub fn less(a: &[u8], b: &[u8]) -> bool
    ensures { result ≡ less_bytes a.now b.now }
{
    compare(a, b).is_lt()
}
