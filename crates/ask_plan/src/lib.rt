// The plan ask: 20 at 0 for the bundle of header lists; then the manifest is read into buffers of the ask's own, and
// the list is planned from them.
#![tactic(auto)]

ghost use Rattle.std.specs.Prelude.{◌≡◌, ◌≤◌, length};
ghost use Rattle.spec.specs.Limits.{least_list};
ghost use Rattle.spec.specs.Headers.{sound_headers};
ghost use Rattle.spec.specs.PlanAsk.{inputs_of};
ghost use Rattle.spec.specs.Promises.{PlanPromise};
ghost use Rattle.ask_plan.specs.Lists.{LentLists};

use apply_manifest::read_manifest;
use ask_plan_reading::plan_read;
use hold_bindings::{ROWS, TEXTS};
use hold_names::NUMBERS;
use hold_reading::columns::COLUMNS_ROOM;
use scan_bundle::index;
use scan_classes::table;
use scan_texts::is_sound_bundle;
use slices::words::zero_words_from;
use spec::Refusal;
use spec::limits::{HEADERS, VALUE, WRITTEN};

// Whether the header lists are a sound bundle of 0 to 512 records.
fn has_sound_lists(headers: &[u8]) -> bool
    ensures { result ≡ sound_headers headers.now }
{
    let mut order = [0u32; HEADERS];
    index(headers, 0, HEADERS, &mut order).is_some()
}

// The ask where the header lists are a sound bundle.
fn plan_with_lists(
    manifest: &[u8],
    headers: &[u8],
    card: &[u8],
    targets: &[u8],
    list: &mut [u32],
) -> Result<usize, Refusal>
    requires { LentLists headers.now list.old }
    ensures { PlanPromise (inputs_of manifest.now card.now targets.now headers.now) list.old result list.new }
{
    let t = table();
    let mut names = [0u8; WRITTEN];
    let mut index = [0u32; NUMBERS];
    let mut texts = [0u8; TEXTS];
    let mut bind = [0u32; ROWS];
    let mut graph = [0u32; COLUMNS_ROOM];
    let mut word = [0u8; VALUE];
    match read_manifest(
        &t, manifest, &mut names, &mut index, &mut texts, &mut bind, &mut graph, &mut word,
    ) {
        Ok(c) => plan_read(
            &t, headers, card, targets, &mut names, &mut index, &texts, &bind, &graph, c, list,
        ),
        Err(r) => {
            zero_words_from(list, 0);
            Err(r)
        }
    }
}

// With a list buffer of 512 numbers at least. Where the header lists are no sound bundle, the manifest's own says
// which it is: 20 at 0 comes after 19.
pub fn plan_buffered(
    manifest: &[u8],
    headers: &[u8],
    card: &[u8],
    targets: &[u8],
    list: &mut [u32],
) -> Result<usize, Refusal>
    requires { least_list ≤ length list.old }
    ensures { PlanPromise (inputs_of manifest.now card.now targets.now headers.now) list.old result list.new }
{
    if has_sound_lists(headers) {
        return plan_with_lists(manifest, headers, card, targets, list);
    }
    zero_words_from(list, 0);
    if is_sound_bundle(manifest) {
        return Err(Refusal::BadHeaders(0));
    }
    Err(Refusal::BadBundle)
}
