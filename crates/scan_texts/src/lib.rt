// What a bundle of manifest texts is refused for before any line: 19 at 0, then 2, then 3.
#![tactic(auto)]

ghost use Rattle.std.specs.Prelude.{true, ◌≡◌, map, List, ℕ, length};
ghost use Rattle.spec.specs.Basics.{sum};
ghost use Rattle.spec.specs.Limits.{max_bundle};
ghost use Rattle.spec.specs.Bundle.{sound_bundle, bundle_texts};
ghost use Rattle.spec.specs.Manifest.{bad_byte_in};
ghost use Rattle.scan_raw.specs.Texts.{place_of};
ghost use Rattle.scan_texts.specs.Checks.{ShortBundle};

use scan_bundle::{index, record_text, text_base};
use scan_numbers::word;
use scan_raw::manifest::bad_byte;
use spec::limits::BUNDLE;

// Whether a bundle of 1 to 64 records is sound.
pub fn is_sound_bundle(b: &[u8]) -> bool
    ensures { result ≡ sound_bundle 1 max_bundle b.now }
{
    let mut order = [0u32; BUNDLE];
    index(b, 1, BUNDLE, &mut order).is_some()
}

// The bytes of all texts of a sound bundle together: they lie behind the records and the names, up to its end.
pub fn bytes_together(b: &[u8]) -> usize
    requires { sound_bundle 1 max_bundle b.now ≡ true }
    ensures { result ≡ sum (map (λ (t : List ℕ). length t) (bundle_texts b.now)) }
{
    let n = word(b, 0);
    let first = word(b, 24);
    b.len() - (16 + 16 * n + first)
}

// "3 takes them in order": the first bad byte of a sound bundle's texts, by its place among all texts.
pub fn first_bad(b: &[u8]) -> Option<usize>
    requires { ShortBundle b.now }
    ensures { place_of result ≡ bad_byte_in 0 (bundle_texts b.now) }
{
    let n = word(b, 0);
    for k in 0..n {
        if let Some(p) = bad_byte(record_text(b, k)) {
            return Some(text_base(b, k) + p);
        }
    }
    None
}
