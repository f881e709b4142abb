// The check of a whole manifest's bytes.
ghost use Rattle.std.specs.Prelude.{◌≡◌};
ghost use Rattle.spec.specs.Bytes.{newline};
ghost use Rattle.spec.specs.Manifest.{bad_byte};
ghost use Rattle.scan_classes.specs.Table.{classes};
ghost use Rattle.scan_raw.specs.Texts.{place_of};

fn bad_byte_in(t: &[u8; 256], m: &[u8]) -> Option<usize>
    requires { t.now ≡ classes }
    ensures { place_of result ≡ bad_byte newline 0 m.now }
{
    let mut last = b'\n';
    for i in 0..m.len() {
        last = m[i];
        if scan_classes::class_in(t, last) == scan_classes::FORBIDDEN {
            return Some(i);
        }
    }
    if last == b'\n' { None } else { Some(m.len()) }
}

// The first forbidden byte, or the length where the last byte is no newline; None if there is neither.
pub fn bad_byte(m: &[u8]) -> Option<usize>
    ensures { place_of result ≡ bad_byte newline 0 m.now }
{
    let t = scan_classes::table();
    bad_byte_in(&t, m)
}
