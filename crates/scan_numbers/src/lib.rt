// "Numbers are little-endian": the numbers in four and in eight lent bytes.
#![tactic(auto)]

ghost use Rattle.std.specs.Prelude.{◌+◌, ◌≤◌, length};
ghost use Rattle.scan_numbers.specs.Numbers.{NumberIs};

// The number in the four bytes at `at`.
pub fn word(s: &[u8], at: usize) -> usize
    requires { at + 4 ≤ length s.now }
    ensures { NumberIs s.now at 4 result }
{
    u32::from_le_bytes([s[at], s[at + 1], s[at + 2], s[at + 3]]) as usize
}

// The number in the eight bytes at `at`.
pub fn long(s: &[u8], at: usize) -> u64
    requires { at + 8 ≤ length s.now }
    ensures { NumberIs s.now at 8 result }
{
    let low = word(s, at);
    let high = word(s, at + 4);
    low as u64 + high as u64 * 4294967296
}
