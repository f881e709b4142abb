// The time of a file on a sound card, by halving.
#![tactic(auto)]

ghost use Rattle.std.specs.Prelude.{◌≡◌, true};
ghost use Rattle.lists.specs.Order.{order_bytes};
ghost use Rattle.spec.specs.Card.{sound_card, card_entries, time_in};
ghost use Rattle.scan_card.specs.Fields.{EntryListed, card_entry_at};

use byte_order::compare;
use scan_numbers::{long, word};
use std::cmp::Ordering;

// The time of the file of this name, 0 where the card does not list it.
// A time is at least 1, and the columns of times are fixed memory with a 0 where there is none: no `Option`.
pub fn time_of(card: &[u8], name: &[u8]) -> u64
    requires { sound_card card.now ≡ true }
    ensures { result ≡ time_in (card_entries card.now) name.now }
{
    let mut low = 0;
    let mut high = word(card, 0);
    while low < high {
        let mid = low + (high - low) / 2;
        match order_at(card, mid, name) {
            Ordering::Less => {
                high = mid;
            }
            Ordering::Greater => {
                low = mid + 1;
            }
            Ordering::Equal => {
                return time_at(card, mid);
            }
        }
    }
    0
}

// How a name compares with that of entry k.
fn order_at(card: &[u8], k: usize, name: &[u8]) -> Ordering
    requires { EntryListed card.now k }
    ensures { result ≡ order_bytes name.now (card_entry_at card.now k).name }
{
    let names = 16 + 16 * word(card, 0);
    let at = 16 + 16 * k;
    let from = names + word(card, at);
    let to = from + word(card, at + 4);
    compare(name, &card[from..to])
}

fn time_at(card: &[u8], k: usize) -> u64
    requires { EntryListed card.now k }
    ensures { result ≡ (card_entry_at card.now k).time }
{
    long(card, 16 + 16 * k + 8)
}
