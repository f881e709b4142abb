// The table of names in lent buffers, made anew in each call.
ghost use Rattle.std.specs.Prelude.{◌+◌, length};
ghost use Rattle.hold_names.specs.Table.{SoundNames};
ghost use Rattle.test_scan.specs.Names.{AddsNumber, NamesAsked, AddsAll, NumbersNames};

use hold_names::{Added, NUMBERS, add, clear};
use scan_targets::{NextTarget, name_at};

// What adding a path answers in numbers, and how many names there are then.
#[derive(Clone, Copy)]
struct Numbered {
    number: usize,
    count: usize,
}

fn add_name(names: &mut [u8], index: &mut [u32], count: usize, path: &[u8]) -> Numbered
    requires { SoundNames names.old index.old count }
    ensures { AddsNumber names.old index.old count path.now names.new index.new result.number result.count }
{
    match add(names, index, count, path) {
        Added::Old(k) => Numbered {
            number: 2 * k + 1,
            count,
        },
        Added::New(k) => Numbered {
            number: 2 * k + 2,
            count: count + 1,
        },
        Added::Full => Numbered { number: 0, count },
    }
}

// Adds the names of a list to a table of none, as long as there is room for their numbers. How many they are.
fn add_all(list: &[u8], names: &mut [u8], index: &mut [u32], numbers: &mut [u32]) -> usize
    requires { NamesAsked names.old index.old }
    ensures { AddsAll list.now (length names.old) numbers.old result names.new index.new numbers.new }
{
    let mut from = 0;
    let mut count = 0;
    let mut n = 0;
    // Each name says where the next one starts, so that no `for` counts them.
    while n < numbers.len() {
        let NextTarget::Name(end) = name_at(list, from) else {
            return n;
        };
        let a = add_name(names, index, count, &list[from..end]);
        numbers[n] = a.number as u32;
        count = a.count;
        n += 1;
        from = end + 1;
    }
    n
}

// The numbers that the names of a list get in a new table: 0 where the buffers have no room for a table, else one more
// than the names that were added.
#[unsafe(no_mangle)]
pub extern "C" fn kestrenyo_names_number(
    list: &[u8],
    names: &mut [u8],
    index: &mut [u32],
    numbers: &mut [u32],
) -> usize
    ensures { NumbersNames list.now names.old index.old numbers.old result names.new index.new numbers.new }
{
    if 4294967295 < names.len() || index.len() < NUMBERS {
        return 0;
    }
    clear(index);
    add_all(list, names, index, numbers) + 1
}
