// Slices of bytes: find, copy, clear.
ghost use Rattle.std.specs.Prelude.{◌≡◌, ◌+◌, ◌≤◌, length};
ghost use Rattle.std.proofs.Math.Seq.{paste};
ghost use Rattle.lists.specs.Fill.{zeroed};
ghost use Rattle.lists.specs.Runs.{Reads, after_run, is_not};

// The first place from `from` on whose byte is b, or the end.
pub fn find(s: &[u8], from: usize, b: u8) -> usize
    requires { from ≤ length s.now }
    ensures { Reads (after_run (is_not b)) s.now from result }
{
    for i in from..s.len() {
        if s[i] == b {
            return i;
        }
    }
    s.len()
}

// Copies src into dst from place `at` on. By std's `copy_from_slice` the library would need `memmove` from outside.
pub fn copy_at(dst: &mut [u8], at: usize, src: &[u8])
    requires { at + length src.now ≤ length dst.old }
    ensures { dst.new ≡ paste dst.old at src.now (length src.now) }
{
    for i in 0..src.len() {
        dst[at + i] = src[i];
    }
}

// Zeroes the places from `from` up to, not including, `to`.
pub fn zero_bytes_in(buf: &mut [u8], from: usize, to: usize)
    requires { (from ≤ to) × (to ≤ length buf.old) }
    ensures { buf.new ≡ zeroed buf.old from to }
{
    buf[from..to].fill(0);
}

// Zeroes the places from `from` to the end.
pub fn zero_bytes_from(buf: &mut [u8], from: usize)
    ensures { buf.new ≡ zeroed buf.old from (length buf.old) }
{
    let n = buf.len();
    if from < n {
        zero_bytes_in(buf, from, n);
    }
}
