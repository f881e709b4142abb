// The time card.
ghost use Rattle.std.specs.Prelude.{◌≡◌, true};
ghost use Rattle.lists.specs.Tests.{if_b};
ghost use Rattle.spec.specs.Card.{sound_card, card_entries, time_in};
ghost use Rattle.spec.specs.Targets.{targets_of};
ghost use Rattle.test_scan.specs.Cards.{is_listed, card_listed};
ghost use Rattle.test_scan.specs.Targets.{good_names};

use scan_card_lookup::time_of;
use scan_targets::{NextTarget, name_at};

#[unsafe(no_mangle)]
pub extern "C" fn kestrenyo_card_sound(card: &[u8]) -> bool
    ensures { result ≡ sound_card card.now }
{
    scan_card::sound(card)
}

// The time of a file, 0 where the card is not sound.
#[unsafe(no_mangle)]
pub extern "C" fn kestrenyo_card_time(card: &[u8], name: &[u8]) -> u64
    ensures { result ≡ if_b (sound_card card.now) (λ _. time_in (card_entries card.now) name.now) (λ _. 0) }
{
    if !scan_card::sound(card) {
        return 0;
    }
    time_of(card, name)
}

// 1 for a name that has a time.
fn is_listed(card: &[u8], name: &[u8]) -> usize
    requires { sound_card card.now ≡ true }
    ensures { result ≡ is_listed card.now name.now }
{
    if time_of(card, name) == 0 { 0 } else { 1 }
}

fn count_listed(card: &[u8], list: &[u8]) -> usize
    requires { sound_card card.now ≡ true }
    ensures { result ≡ card_listed card.now (good_names (targets_of list.now)) }
{
    let mut from = 0;
    let mut n: usize = 0;
    while let NextTarget::Name(end) = name_at(list, from) {
        n += is_listed(card, &list[from..end]);
        from = end + 1;
    }
    n
}

// How many of a list's names the card lists, with its soundness tested once; 0 where it is not sound.
#[unsafe(no_mangle)]
pub extern "C" fn kestrenyo_card_listed(card: &[u8], list: &[u8]) -> usize
    ensures { result ≡ if_b (sound_card card.now) (λ _. card_listed card.now (good_names (targets_of list.now))) (λ _. 0) }
{
    if !scan_card::sound(card) {
        return 0;
    }
    count_listed(card, list)
}
