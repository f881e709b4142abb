// What the program lends: the bundle of `build.ninja` alone, and no header lists.
#![tactic(auto)]

ghost use Rattle.std.specs.Prelude.{◌≤◌, ◌≡◌, length};
ghost use Rattle.spec.specs.Bundle.{no_lists};
ghost use Rattle.report_bundle.specs.Lends.{alone_room, LendsAlone};

use scan_bundle::wrap;
use spec::limits::MANIFEST;

// The bundle of `build.ninja` alone, in a lent buffer: its length. Of a text over the limit one byte more is lent, so
// that it is seen to be too long.
pub fn lend_alone(manifest: &[u8], bundle: &mut [u8]) -> usize
    requires { alone_room ≤ length bundle.old }
    ensures { LendsAlone manifest.now bundle.old bundle.new result }
{
    if manifest.len() <= MANIFEST {
        return wrap(b"build.ninja", manifest, bundle);
    }
    wrap(b"build.ninja", &manifest[..MANIFEST + 1], bundle)
}

// "(the program lends none)": a bundle has four numbers at its start, and this one nothing else.
pub fn no_lists() -> [u8; 16]
    ensures { result ≡ no_lists }
{
    [0, 0, 0, 0, 16, 0, 0, 0, 16, 0, 0, 0, 16, 0, 0, 0]
}
