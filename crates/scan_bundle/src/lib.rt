// A lent bundle: whether its bytes are a sound one, its names and texts as parts of it, the record of a name by
// halving, places in its texts, and the bundle of one record written.
#![tactic(auto)]

ghost use Rattle.std.specs.Prelude.{◌≡◌, [], ◌+◌, ◌≤◌, ◌<◌, length, get_or};
ghost use Rattle.std.proofs.Math.Seq.{paste};
ghost use Rattle.spec.specs.Answers.{base_of, spot};
ghost use Rattle.spec.specs.Bundle.{extent_at, lying_at, bundle_names, bundle_texts, sound_extents, laid_bundle};
ghost use Rattle.spec.specs.Card.{in_bytes, number_at, card_names};
ghost use Rattle.scan_bundle.specs.Bundles.{LaidBundle, LiesAt, RunAsks, run_of, NamesSorted, PlacesRecord, SortsNames, BundleIndexed, Indexes, found_record, record_place_of, Wraps, WrapsHead};

use arena::insert;
use byte_order::compare;
use scan_card::sound_layout;
use scan_numbers::word;
use slices::bytes::copy_at;
use slices::words::at;
use spec::limits::PATH;
use std::cmp::Ordering;

// A place in the texts: the number of a text and an offset in it. A place past them all has the number of texts.
#[derive(Clone, Copy)]
pub struct Spot {
    pub text: usize,
    pub offset: usize,
}

// Whether a bundle of so many records at least and at most is sound. If it is, `order` begins with the numbers of its
// records sorted by name, and the answer is how many there are.
pub fn index(b: &[u8], least: usize, most: usize, order: &mut [u32]) -> Option<usize>
    requires { most ≤ length order.old }
    ensures { Indexes b.now least most order.old order.new result }
{
    if !is_laid(b, least, most) {
        return None;
    }
    let n = word(b, 0);
    if !sort_names(b, n, order) {
        return None;
    }
    Some(n)
}

// Whether header and extents break no rule.
fn is_laid(b: &[u8], least: usize, most: usize) -> bool
    ensures { result ≡ laid_bundle least most b.now }
{
    if !sound_layout(b) {
        return false;
    }
    let n = word(b, 0);
    if n < least {
        return false;
    }
    if most < n {
        return false;
    }
    has_sound_extents(b, n, word(b, 12))
}

// Whether the names of n records lie end to end, the texts behind them likewise, and the last ends where the bundle
// does.
fn has_sound_extents(b: &[u8], n: usize, total: usize) -> bool
    requires { RunAsks b.now n × (total ≡ length b.now) }
    ensures { result ≡ sound_extents b.now }
{
    let Some(t) = end_of(b, n, 16, 0, 1, PATH) else {
        return false;
    };
    let Some(e) = end_of(b, n, 24, t, 0, total) else {
        return false;
    };
    e == total - (16 + 16 * n)
}

// Where n extents end that lie end to end from `start` on, each of a size within bounds; None if they do not. The
// first is at `first`, each next one 16 bytes on.
fn end_of(
    b: &[u8],
    n: usize,
    first: usize,
    start: usize,
    least: usize,
    most: usize,
) -> Option<usize>
    requires run_asks { RunAsks b.now n }
    requires first_bound { (first ≤ 24) × (start < 2305843009213693952) }
    ensures { result ≡ run_of least most start n first b.now }
{
    let mut end = start;
    for k in 0..n {
        let p = first + 16 * k;
        if word(b, p) != end {
            return None;
        }
        let size = word(b, p + 4);
        if size < least {
            return None;
        }
        if most < size {
            return None;
        }
        end += size;
    }
    Some(end)
}

// The bytes at the extent that stands at a place.
fn part_at<'a>(b: &'a [u8], p: usize) -> &'a [u8]
    requires { LiesAt b.now p }
    ensures { result.now ≡ lying_at (card_names b.now) (extent_at p b.now) }
{
    let from = 16 + 16 * word(b, 0) + word(b, p);
    let to = from + word(b, p + 4);
    &b[from..to]
}

// The name of record k, as a part of the bundle.
pub fn record_name<'a>(b: &'a [u8], k: usize) -> &'a [u8]
    requires laid_bundle { LaidBundle b.now }
    requires k_bound { k < number_at 0 4 b.now }
    ensures { result.now ≡ get_or (bundle_names b.now) k [] }
{
    part_at(b, 16 + 16 * k)
}

// Its text.
pub fn record_text<'a>(b: &'a [u8], k: usize) -> &'a [u8]
    requires laid_bundle { LaidBundle b.now }
    requires k_bound { k < number_at 0 4 b.now }
    ensures { result.now ≡ get_or (bundle_texts b.now) k [] }
{
    part_at(b, 24 + 16 * k)
}

// Sorts the records by name. False where a name is there twice.
fn sort_names(b: &[u8], n: usize, order: &mut [u32]) -> bool
    requires laid_bundle { LaidBundle b.now }
    requires n_value { (n ≡ number_at 0 4 b.now) × (n ≤ length order.old) × (n < 4294967296) }
    ensures { SortsNames b.now n order.old order.new result }
{
    for k in 0..n {
        let Err(p) = place_of(b, k, &order[..k], record_name(b, k)) else {
            return false;
        };
        insert(order, k, p, k);
    }
    true
}

// Where a name stands among those of the first n records, which `order` has sorted, by halving: Ok with the number of
// the record of that name, Err with the place in the order where one would be put in.
fn place_of(b: &[u8], n: usize, order: &[u32], name: &[u8]) -> Result<usize, usize>
    requires laid_bundle { LaidBundle b.now }
    requires n_bound { (n ≤ number_at 0 4 b.now) × NamesSorted (bundle_names b.now) n order.now }
    ensures { PlacesRecord (bundle_names b.now) n order.now name.now result }
{
    let mut low = 0;
    let mut high = order.len();
    while low < high {
        let mid = low + (high - low) / 2;
        let k = at(order, mid);
        match compare(name, record_name(b, k)) {
            Ordering::Less => {
                high = mid;
            }
            Ordering::Greater => {
                low = mid + 1;
            }
            Ordering::Equal => {
                return Ok(k);
            }
        }
    }
    Err(low)
}

// The number of the record of that name.
pub fn find_record(b: &[u8], n: usize, order: &[u32], path: &[u8]) -> Option<usize>
    requires { BundleIndexed b.now n order.now }
    ensures { result ≡ found_record path.now (bundle_names b.now) }
{
    place_of(b, n, &order[..n], path).ok()
}

// Where text k begins among all texts laid end to end with one place between two.
pub fn text_base(b: &[u8], k: usize) -> usize
    requires laid_bundle { LaidBundle b.now }
    requires k_bound { k < number_at 0 4 b.now }
    ensures { result ≡ base_of (bundle_texts b.now) k }
{
    word(b, 24 + 16 * k) - word(b, 24) + k
}

// The text and the offset in it of a place among all texts.
pub fn spot_of(b: &[u8], n: usize, place: usize) -> Spot
    requires laid_bundle { LaidBundle b.now }
    requires n_value { n ≡ number_at 0 4 b.now }
    ensures { record_place_of n result ≡ spot (bundle_texts b.now) place }
{
    let mut left = place;
    for k in 0..n {
        let size = word(b, 24 + 16 * k + 4);
        if left <= size {
            return Spot {
                text: k,
                offset: left,
            };
        }
        left -= size + 1;
    }
    Spot {
        text: n,
        offset: left,
    }
}

// Writes a number as four bytes, the lowest first.
fn put_word(out: &mut [u8], p: usize, v: usize)
    requires { p + 4 ≤ length out.old }
    ensures { out.new ≡ paste out.old p (in_bytes 4 v) 4 }
{
    out[p..p + 4].copy_from_slice(&v.to_le_bytes()[..4]);
}

// Writes the header and the record of a bundle of one name and one text.
fn wrap_head(out: &mut [u8], name: usize, text: usize)
    requires { (32 ≤ length out.old) × (name + text < 4294967264) }
    ensures { WrapsHead name text out.old out.new }
{
    put_word(out, 0, 1);
    put_word(out, 4, 16);
    put_word(out, 8, 32);
    put_word(out, 12, 32 + (name + text));
    put_word(out, 16, 0);
    put_word(out, 20, name);
    put_word(out, 24, name);
    put_word(out, 28, text);
}

// Writes the bundle of one record. Its length.
pub fn wrap(name: &[u8], text: &[u8], out: &mut [u8]) -> usize
    requires { (32 + (length name.now + length text.now) ≤ length out.old) × (length name.now + length text.now < 4294967264) }
    ensures { Wraps name.now text.now out.old out.new result }
{
    wrap_head(out, name.len(), text.len());
    copy_at(out, 32, name);
    copy_at(out, 32 + name.len(), text);
    32 + (name.len() + text.len())
}
