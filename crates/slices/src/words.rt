// Slices of 32-bit numbers.
ghost use Rattle.std.specs.Prelude.{◌≡◌, ◌≤◌, ◌<◌, length, get_or};
ghost use Rattle.lists.specs.Fill.{zeroed};

fn wide(x: u32) -> usize
    ensures { result ≡ x }
{
    x as usize
}

pub fn at(a: &[u32], i: usize) -> usize
    requires { i < length a.now }
    ensures { result ≡ get_or a.now i 0 }
{
    wide(a[i])
}

// Zeroes the places from `from` up to, not including, `to`. One function for bytes too would be no plainer: its
// contract would have to carry the zero of its type, and that a copy of it is the same.
pub fn zero_words_in(buf: &mut [u32], from: usize, to: usize)
    requires { (from ≤ to) × (to ≤ length buf.old) }
    ensures { buf.new ≡ zeroed buf.old from to }
{
    buf[from..to].fill(0);
}

// Zeroes the places from `from` to the end.
pub fn zero_words_from(buf: &mut [u32], from: usize)
    ensures { buf.new ≡ zeroed buf.old from (length buf.old) }
{
    let n = buf.len();
    if from < n {
        zero_words_in(buf, from, n);
    }
}
