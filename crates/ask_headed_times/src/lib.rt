// The times by which the steps with their listed inputs are judged: the card's, but those of the outputs that a
// depfile makes stale.
#![tactic(auto)]

ghost use Rattle.ask_headed_times.specs.Times.{HeadedAsked, HeadedTimes};

use ask_file_times::fill_times;
use ask_judged_times::judge_times;
use hold_columns::Columns;

// Puts the time of each file at its number.
pub fn headed_times(
    card: &[u8],
    names: &[u8],
    index: &[u32],
    g: &Columns,
    missing: &[u32],
    listed: &[u32],
    times: &mut [u64],
)
    requires { HeadedAsked card.now names.now index.now g.now.mentions.now g.now.ends.now g.now.made.now missing.now listed.now times.old }
    ensures { HeadedTimes card.now names.now index.now g.now.mentions.now g.now.ends.now g.now.made.now missing.now listed.now times.new }
{
    let n = g.made.len();
    fill_times(card, names, index, n, times);
    judge_times(g, missing, listed, times);
}
