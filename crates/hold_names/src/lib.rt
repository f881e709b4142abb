// The table of file names: a number for each path, by first mention. The bytes of the names lie end to end in `names`.
// `index` has where each ends; then for each bucket two names, as one number; then, sorted and in blocks, the numbers
// of those that found no room in their bucket.
#![tactic(auto)]

ghost use Rattle.std.specs.Prelude.{◌≡◌, ◌+◌, ◌-◌, ◌^◌, ◌≤◌, ◌<◌, length, drop};
ghost use Rattle.lists.specs.Fill.{zeroed};
ghost use Rattle.spec.specs.Limits.{max_files};
ghost use Rattle.hold_names.specs.Table.{buckets, bucket_from, Summed, bucket_of, heads_from, max_numbers, max_blocks, last_block, size_of, Shape, SoundNames, FindsName, AddsName, NamesFile, name_start, compared_of, ComparesName, MatchesName, PicksNames, Halves, SeeksSorted, SeeksSecond, SeeksName, Lifted, Roomed, PutIn, Parted, Spared, Entered};

use arena::put;
use byte_order::{compare, equal};
use slices::bytes::copy_at;
use slices::words::{at, zero_words_in};
use spec::limits::FILES;
use std::cmp::Ordering;

// The numbers lie in three parts: where each name ends, the names of each bucket, the sorted names.
const HEADS: usize = FILES;

const BUCKETS: usize = FILES - 1;
// behind the buckets: the number of the last block
const LAST: usize = HEADS + BUCKETS;

const BLOCKS: usize = HEADS + FILES;

// Each block but a lone one has 63 names or more.
pub const NUMBERS: usize = BLOCKS + FILES / 63 * 128;

// A bucket's number has its first name below this, its second above.
const PAIR: usize = 65536;

#[derive(Clone, Copy)]
pub enum Added {
    // It was there, with this number.
    Old(usize),
    // It is there now, with this number.
    New(usize),
    // There is no room for it.
    Full,
}

// How a path compares with a name: it stands before it, is the same, or stands behind it. Each has how many compares
// were made with this one.
#[derive(Clone, Copy)]
pub enum Compared {
    Before(usize),
    Same(usize),
    Behind(usize),
}

// Whether a path is a name, and how many compares were made with this one.
#[derive(Clone, Copy)]
pub struct Matched {
    pub same: bool,
    pub compares: usize,
}

// The end of halving: the number of the path, or the count of names; how many compares were made; how many of those
// looked at are less than the path.
#[derive(Clone, Copy)]
pub struct Halved {
    pub number: usize,
    pub compares: usize,
    pub place: usize,
}

// The same of all sorted names, with the block of a new path and its place there.
#[derive(Clone, Copy)]
pub struct Sought {
    pub number: usize,
    pub compares: usize,
    pub block: usize,
    pub place: usize,
}

// The same of a whole lookup, with the path's bucket, so that `add` need not sum its bytes again.
#[derive(Clone, Copy)]
pub struct Lookup {
    pub bucket: usize,
    pub number: usize,
    pub compares: usize,
    pub block: usize,
    pub place: usize,
}

fn wide(b: u8) -> usize
    ensures { (result ≡ b) × (result < 256) }
{
    b as usize
}

// The sum of a path's bytes behind one of those before place i, four more of them at once: that sum is multiplied once
// where it would be four times.
fn sum_four(path: &[u8], i: usize, h: usize) -> usize
    requires { (i + 4 ≤ length path.now) × (h < max_files) }
    ensures { Summed path.now h i result (i + 4) }
{
    let a = wide(path[i]);
    let b = wide(path[i + 1]);
    let c = wide(path[i + 2]);
    let d = wide(path[i + 3]);
    (a * 1601613 + b * 13689 + c * 117 + d + h * 187388721) % FILES
}

// The same of all bytes from place `from` on, one by one.
fn sum_rest(path: &[u8], from: usize, sum: usize) -> usize
    requires { sum < max_files }
    ensures { result ≡ bucket_from sum (drop from path.now) }
{
    let mut h = sum;
    for i in from..path.len() {
        h = (h * 117 + wide(path[i])) % FILES;
    }
    h
}

// The bucket of a path.
fn bucket(path: &[u8]) -> usize
    ensures { result ≡ bucket_of path.now }
{
    let mut h = 0;
    let mut i = 0;
    while i + 4 <= path.len() {
        h = sum_four(path, i, h);
        i += 4;
    }
    sum_rest(path, i, h).min(BUCKETS - 1)
}

// Makes the table one of no names.
pub fn clear(index: &mut [u32])
    requires { max_numbers ≤ length index.old }
    ensures { index.new ≡ zeroed index.old heads_from max_numbers }
{
    zero_words_in(index, HEADS, NUMBERS);
}

// One compare more than n.
fn counted(order: Ordering, n: usize) -> Compared
    requires { n < 2 ^ 32 }
    ensures { result ≡ compared_of (n + 1) order }
{
    match order {
        Ordering::Less => Compared::Before(n + 1),
        Ordering::Equal => Compared::Same(n + 1),
        Ordering::Greater => Compared::Behind(n + 1),
    }
}

// One compare of a path with name k: which of them comes first. Nothing but this and `match_name` compares names in
// this table.
fn compare_name(
    names: &[u8],
    index: &[u32],
    count: usize,
    k: usize,
    path: &[u8],
    n: usize,
) -> Compared
    requires sound_names { SoundNames names.now index.now count }
    requires k_lt_count { (k < count) × (n < 2 ^ 32) }
    ensures { ComparesName names.now index.now count k path.now n result }
{
    counted(compare(path, file_name(names, index, count, k)), n)
}

// A step of halving: one compare, whatever it tells.
fn step(names: &[u8], index: &[u32], count: usize, k: usize, path: &[u8], n: usize) -> Compared
    requires sound_names { SoundNames names.now index.now count }
    requires k_lt_count { (k < count) × (n < 2 ^ 32) }
    ensures { ComparesName names.now index.now count k path.now n result }
{
    compare_name(names, index, count, k, path, n)
}

// One compare of a path with name k: whether they are the same. Names of other lengths are told apart by their
// lengths.
fn match_name(names: &[u8], index: &[u32], count: usize, k: usize, path: &[u8], n: usize) -> Matched
    requires sound_names { SoundNames names.now index.now count }
    requires k_lt_count { (k < count) × (n < 2 ^ 32) }
    ensures { MatchesName names.now index.now count k path.now n result }
{
    Matched {
        same: equal(path, file_name(names, index, count, k)),
        compares: n + 1,
    }
}

// A step of the lookup in a bucket: one compare with a name that is given by its number and one more.
fn match_entry(
    names: &[u8],
    index: &[u32],
    count: usize,
    entry: usize,
    path: &[u8],
    n: usize,
) -> Matched
    requires sound_names { SoundNames names.now index.now count }
    requires nonzero { (0 < entry) × (entry ≤ count) × (n < 2 ^ 32) }
    ensures { MatchesName names.now index.now count (entry - 1) path.now n result }
{
    match_name(names, index, count, entry - 1, path, n)
}

// The path among so many sorted names, by halving: their numbers stand from place `from` on, each `by` places behind
// the one before.
fn halve(
    names: &[u8],
    index: &[u32],
    count: usize,
    from: usize,
    by: usize,
    many: usize,
    path: &[u8],
    n: usize,
) -> Halved
    requires sound_names { SoundNames names.now index.now count }
    requires picks_names { PicksNames names.now index.now count from by many }
    requires n_bound { n ≤ 9 }
    ensures { Halves names.now index.now count from by many path.now n result }
{
    let mut made = n;
    let mut low = 0;
    let mut high = many;
    while low < high {
        let mid = low + (high - low) / 2;
        let k = at(index, from + mid * by);
        match step(names, index, count, k, path, made) {
            Compared::Before(m) => {
                high = mid;
                made = m;
            }
            Compared::Behind(m) => {
                low = mid + 1;
                made = m;
            }
            Compared::Same(m) => {
                return Halved {
                    number: k,
                    compares: m,
                    place: 0,
                };
            }
        }
    }
    Halved {
        number: count,
        compares: made,
        place: low,
    }
}

// The path among the sorted names: the first names of all blocks but the first block tell which block it belongs to.
fn seek_sorted(names: &[u8], index: &[u32], count: usize, path: &[u8], n: usize) -> Sought
    requires sound_names { SoundNames names.now index.now count }
    requires n_bound { n ≤ 2 }
    ensures { SeeksSorted names.now index.now count path.now n result }
{
    let last = at(index, LAST);
    let b = halve(names, index, count, BLOCKS + 128, 128, last, path, n);
    if b.number < count {
        return Sought {
            number: b.number,
            compares: b.compares,
            block: 0,
            place: 0,
        };
    }
    let from = BLOCKS + b.place * 128;
    let h = halve(
        names,
        index,
        count,
        from,
        1,
        at(index, from + 127),
        path,
        b.compares,
    );
    Sought {
        number: h.number,
        compares: h.compares,
        block: b.place,
        place: h.place,
    }
}

// The path as the second name of its bucket, which is given by its number and one more, or among the sorted names.
fn seek_second(
    names: &[u8],
    index: &[u32],
    count: usize,
    path: &[u8],
    second: usize,
    n: usize,
) -> Sought
    requires sound_names { SoundNames names.now index.now count }
    requires second_le_count { (second ≤ count) × (n ≤ 1) }
    ensures { SeeksSecond names.now index.now count path.now second n result }
{
    if second == 0 {
        return Sought {
            number: count,
            compares: n,
            block: 0,
            place: 0,
        };
    }
    let m = match_entry(names, index, count, second, path, n);
    if m.same {
        return Sought {
            number: second - 1,
            compares: m.compares,
            block: 0,
            place: 0,
        };
    }
    seek_sorted(names, index, count, path, m.compares)
}

// The lookup of a path: the two names of its bucket, then the sorted ones.
fn seek(names: &[u8], index: &[u32], count: usize, path: &[u8]) -> Lookup
    requires { SoundNames names.now index.now count }
    ensures { SeeksName names.now index.now count path.now result }
{
    let b = bucket(path);
    let pair = at(index, HEADS + b);
    let first = pair % PAIR;
    let second = pair / PAIR;
    if first == 0 {
        return Lookup {
            bucket: b,
            number: count,
            compares: 0,
            block: 0,
            place: 0,
        };
    }
    let m = match_entry(names, index, count, first, path, 0);
    if m.same {
        return Lookup {
            bucket: b,
            number: first - 1,
            compares: m.compares,
            block: 0,
            place: 0,
        };
    }
    let s = seek_second(names, index, count, path, second, m.compares);
    Lookup {
        bucket: b,
        number: s.number,
        compares: s.compares,
        block: s.block,
        place: s.place,
    }
}

// The number of a path.
pub fn find_name(names: &[u8], index: &[u32], count: usize, path: &[u8]) -> Option<usize>
    requires { SoundNames names.now index.now count }
    ensures { FindsName names.now index.now count path.now result }
{
    let s = seek(names, index, count, path);
    if s.number < count {
        Some(s.number)
    } else {
        None
    }
}

// Moves the numbers between two places up, the last one first.
fn lift(index: &mut [u32], from: usize, to: usize, by: usize)
    requires { (from ≤ to) × (to + by ≤ length index.old) }
    ensures { Lifted index.old from to by index.new }
{
    for i in (from..to).rev() {
        index[i + by] = index[i];
    }
}

// Up to where a block of n names moves from a place on: so many numbers that eight at once leave none over, as far as
// the block reaches.
fn by_eights(place: usize, n: usize) -> usize
    requires { (place ≤ n) × (n ≤ 126) }
    ensures { (n ≤ result) × (result ≤ 127) }
{
    let up = place + (n - place + 7) / 8 * 8;
    up.min(127)
}

// Moves the names of a block of n from a place on up by one, and some of what lies behind them: the compiler moves
// eight numbers at once, and those that are left over one by one.
fn make_room(index: &mut [u32], from: usize, place: usize, n: usize)
    requires { (place ≤ n) × (n ≤ 126) × (from + 128 ≤ length index.old) }
    ensures { Roomed index.old (from + place) (from + n) (from + 128) index.new }
{
    if n <= place {
        return;
    }
    lift(index, from + place, from + by_eights(place, n), 1);
}

// A name more in a block. How many there are then.
fn put_in(index: &mut [u32], count: usize, block: usize, place: usize) -> usize
    requires { (max_numbers ≤ length index.old) × (count < max_files) × (block < max_blocks) × (place ≤ size_of index.old block) × (size_of index.old block ≤ 126) }
    ensures { (result ≡ size_of index.old block + 1) × PutIn index.old count block place index.new }
{
    let from = BLOCKS + block * 128;
    let n = at(index, from + 127);
    make_room(index, from, place, n);
    put(index, from + place, count);
    put(index, from + 127, n + 1);
    n + 1
}

// Parts a block of 127 names: the last 63 of them are the next block, and those behind it move up by one.
fn part_block(index: &mut [u32], block: usize)
    requires { (max_numbers ≤ length index.old) × (last_block index.old + 1 < max_blocks) × (block ≤ last_block index.old) }
    ensures { Parted index.old block index.new }
{
    let last = at(index, LAST);
    let next = BLOCKS + (block + 1) * 128;
    lift(index, next, BLOCKS + (last + 1) * 128, 128);
    lift(index, next - 64, next - 1, 64);
    put(index, next - 1, 64);
    put(index, next + 127, 63);
    put(index, LAST, last + 1);
}

// A name more among the sorted ones.
fn spare(index: &mut [u32], count: usize, block: usize, place: usize)
    requires max_numbers_in_bounds { (max_numbers ≤ length index.old) × (count < max_files) × (block ≤ last_block index.old) × (place ≤ size_of index.old block) }
    requires shape { Shape index.old count }
    ensures { Spared index.old count block place index.new }
{
    if put_in(index, count, block, place) == 127 {
        part_block(index, block);
    }
}

// Puts down the numbers of a name more.
fn enter(index: &mut [u32], count: usize, b: usize, to: usize, block: usize, place: usize)
    requires max_numbers_in_bounds { (max_numbers ≤ length index.old) × (count < max_files) × (b < buckets) × (to < 2 ^ 32) × (block ≤ last_block index.old) × (place ≤ size_of index.old block) }
    requires shape { Shape index.old count }
    ensures { Entered index.old count b to block place index.new }
{
    put(index, count, to);
    let pair = at(index, HEADS + b);
    if pair == 0 {
        put(index, HEADS + b, count + 1);
        return;
    }
    if pair < PAIR {
        put(index, HEADS + b, pair + (count + 1) * PAIR);
        return;
    }
    spare(index, count, block, place);
}

// The number of a path, which is added where it is not there yet.
pub fn add(names: &mut [u8], index: &mut [u32], count: usize, path: &[u8]) -> Added
    requires { SoundNames names.old index.old count }
    ensures { AddsName names.old index.old count path.now names.new index.new result }
{
    let s = seek(names, index, count, path);
    if s.number < count {
        return Added::Old(s.number);
    }
    if FILES <= count {
        return Added::Full;
    }
    let from = start(index, count);
    if names.len() - from < path.len() {
        return Added::Full;
    }
    copy_at(names, from, path);
    enter(index, count, s.bucket, from + path.len(), s.block, s.place);
    Added::New(count)
}

// The same for names that header lists bring. It stands by itself for speed: `add` is built into what calls it, and
// that into the reader's function for a path, only while each of them is called from one place.
pub fn add_listed_name(names: &mut [u8], index: &mut [u32], files: usize, path: &[u8]) -> Added
    requires { SoundNames names.old index.old files }
    ensures { AddsName names.old index.old files path.now names.new index.new result }
{
    let s = seek(names, index, files, path);
    if s.number < files {
        return Added::Old(s.number);
    }
    if FILES <= files {
        return Added::Full;
    }
    let from = start(index, files);
    if names.len() - from < path.len() {
        return Added::Full;
    }
    copy_at(names, from, path);
    enter(index, files, s.bucket, from + path.len(), s.block, s.place);
    Added::New(files)
}

// The path of a number, as a part of the names.
pub fn file_name<'a>(names: &'a [u8], index: &[u32], count: usize, k: usize) -> &'a [u8]
    requires sound_names { SoundNames names.now index.now count }
    requires k_lt_count { k < count }
    ensures { NamesFile names.now index.now count k result.now }
{
    let from = start(index, k);
    let to = at(index, k);
    &names[from..to]
}

// Where name k begins: where the one before it ends.
fn start(index: &[u32], k: usize) -> usize
    requires { k ≤ length index.now }
    ensures { result ≡ name_start index.now k }
{
    if k == 0 { 0 } else { at(index, k - 1) }
}
