// The card's time of each file that a manifest mentions.
#![tactic(auto)]

ghost use Rattle.ask_file_times.specs.Times.{TimesAsked, Timed};

use hold_names::file_name;
use scan_card_lookup::time_of;

// Puts the time of each file at its number; 0 where the card does not list it.
pub fn fill_times(card: &[u8], names: &[u8], index: &[u32], count: usize, times: &mut [u64])
    requires { TimesAsked card.now names.now index.now count times.old }
    ensures { Timed card.now names.now index.now count times.old times.new }
{
    for f in 0..count {
        times[f] = time_of(card, file_name(names, index, count, f));
    }
}
