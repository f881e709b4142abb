// The lent bundle, its records sorted anew in each call.
ghost use Rattle.std.specs.Prelude.{◌≡◌};
ghost use Rattle.test_scan.specs.Bundles.{bundle_count, record_number, records_in, text_number, base_number, spot_number, WrapsInto};

use byte_order::equal;
use scan_bundle::{find_record, index, record_text, spot_of, text_base, wrap};
use spec::limits::BUNDLE;

// One more than the records of a bundle of so many at least and at most; 0 where it is malformed, or may have more
// than 512.
#[unsafe(no_mangle)]
pub extern "C" fn kestrenyo_bundle_count(b: &[u8], least: usize, most: usize) -> usize
    ensures { result ≡ bundle_count b.now least most }
{
    if 512 < most {
        return 0;
    }
    let mut order = [0u32; 512];
    match index(b, least, most, &mut order) {
        None => 0,
        Some(n) => n + 1,
    }
}

// Two more than the number of the record of that name in a bundle of 512 records at most; 1 where there is none, 0
// where it is malformed.
#[unsafe(no_mangle)]
pub extern "C" fn kestrenyo_bundle_find(b: &[u8], path: &[u8]) -> usize
    ensures { result ≡ record_number b.now path.now }
{
    let mut order = [0u32; 512];
    let Some(n) = index(b, 0, 512, &mut order) else {
        return 0;
    };
    match find_record(b, n, &order, path) {
        None => 1,
        Some(k) => k + 2,
    }
}

// The records of a manifest's bundle, 0 where it is malformed.
fn records_in(b: &[u8]) -> usize
    ensures { result ≡ records_in b.now }
{
    let mut order = [0u32; BUNDLE];
    index(b, 1, BUNDLE, &mut order).unwrap_or(0)
}

// One more than the length of text k of a manifest's bundle, where it is this text; 0 where it is another, there is
// none, or the bundle is malformed.
#[unsafe(no_mangle)]
pub extern "C" fn kestrenyo_bundle_text(b: &[u8], k: usize, text: &[u8]) -> usize
    ensures { result ≡ text_number b.now k text.now }
{
    if records_in(b) <= k || !equal(record_text(b, k), text) {
        return 0;
    }
    text.len() + 1
}

// Where text k of a manifest's bundle begins among all its texts; 0 where there is none.
#[unsafe(no_mangle)]
pub extern "C" fn kestrenyo_bundle_base(b: &[u8], k: usize) -> usize
    ensures { result ≡ base_number b.now k }
{
    if records_in(b) <= k {
        return 0;
    }
    text_base(b, k)
}

// Two more than the number of the text that a place among all texts of a manifest's bundle is in; 1 where it is past
// them, 0 where the bundle is malformed.
#[unsafe(no_mangle)]
pub extern "C" fn kestrenyo_bundle_spot(b: &[u8], place: usize) -> usize
    ensures { result ≡ spot_number b.now place }
{
    let n = records_in(b);
    if n == 0 {
        return 0;
    }
    let s = spot_of(b, n, place);
    if n <= s.text {
        return 1;
    }
    s.text + 2
}

// Writes the bundle of one record. Its length; 0, and nothing written, where it has no room or more bytes than 4 bytes
// say.
#[unsafe(no_mangle)]
pub extern "C" fn kestrenyo_bundle_wrap(name: &[u8], text: &[u8], out: &mut [u8]) -> usize
    ensures { WrapsInto name.now text.now out.old out.new result }
{
    let size = name.len() + text.len();
    if 4294967263 < size || out.len() < 32 + size {
        return 0;
    }
    wrap(name, text, out)
}
