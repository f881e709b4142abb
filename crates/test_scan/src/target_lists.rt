// The target list.
ghost use Rattle.std.specs.Prelude.{◌≡◌, [], drop};
ghost use Rattle.spec.specs.Targets.{malformed, targets_from};
ghost use Rattle.test_scan.specs.Targets.{target_number};

use scan_targets::NextTarget;

// Whether the list is too long or its last name is unended.
#[unsafe(no_mangle)]
pub extern "C" fn kestrenyo_targets_malformed(list: &[u8]) -> bool
    ensures { result ≡ malformed list.now }
{
    scan_targets::bad_form(list)
}

// The name that starts at `from`.
#[unsafe(no_mangle)]
pub extern "C" fn kestrenyo_target_at(list: &[u8], from: usize) -> usize
    ensures { result ≡ target_number (targets_from from from [] (drop from list.now)) }
{
    match scan_targets::name_at(list, from) {
        NextTarget::End => 0,
        NextTarget::Bad => 1,
        NextTarget::Name(end) => end + 1,
    }
}
