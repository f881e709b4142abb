// The place of an answer for whoever reads it: a number by itself, or an offset in one of the lent texts.
#![tactic(auto)]

ghost use Rattle.answers.specs.Numbers.{said};
ghost use Rattle.scan_bundle.specs.Bundles.{record_place_of};
ghost use Rattle.answer_places.specs.Places.{HasPlace, PlacedIn};

use answers::{Numbers, Placed};
use scan_bundle::{Spot, index, spot_of};
use spec::limits::BUNDLE;

// A spot among so many texts.
fn at_spot(number: usize, count: usize, s: Spot) -> Placed
    ensures { HasPlace number (record_place_of count s) result }
{
    if s.text < count {
        return Placed {
            number,
            text: s.text + 1,
            value: s.offset,
        };
    }
    Placed {
        number,
        text: 0,
        value: s.offset,
    }
}

// What an answer about a bundle says, with its place. The bundle is read only where the place stands in a text, and
// such an answer is given of a sound bundle alone.
pub fn locate(n: Numbers, bundle: &[u8]) -> Placed
    ensures { PlacedIn bundle.now (said n) result }
{
    let by_itself = Placed {
        number: n.number,
        text: 0,
        value: n.value,
    };
    if !n.text {
        return by_itself;
    }
    let mut order = [0u32; BUNDLE];
    match index(bundle, 1, BUNDLE, &mut order) {
        Some(count) => at_spot(n.number, count, spot_of(bundle, count, n.value)),
        None => by_itself,
    }
}
