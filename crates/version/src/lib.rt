// The version that a manifest asks for: read from bytes, and compared.
#![tactic(auto)]

ghost use Rattle.std.specs.Prelude.{◌≡◌, drop};
ghost use Rattle.version.specs.Version.{version_digit, number, minor_from, patch_from, read_version, above, refused_version};
ghost use Rattle.version.specs.Part.{part_of};

#[derive(Clone, Copy)]
pub struct Version {
    pub major: u32,
    pub minor: u32,
    pub patch: u32,
}

#[tactic(auto, unfolding(crate::specs::Version::version_digit))]
fn is_digit(b: u8) -> bool
    ensures { result ≡ version_digit b }
{
    b.is_ascii_digit()
}

// The number that starts at `from`, and the place of what stands behind it; None if there is none or it is too great.
fn number(s: &[u8], from: usize) -> Option<(u32, usize)>
    ensures { part_of s.now result ≡ number (drop from s.now) }
{
    if s.len() <= from {
        return None;
    }
    let first = s[from];
    if !is_digit(first) {
        return None;
    }
    let mut n: u32 = 0;
    for i in from..s.len() {
        let b = s[i];
        if b == b'.' {
            return Some((n, i));
        }
        if !is_digit(b) {
            return None;
        }
        n = n * 10 + (b - b'0') as u32;
        if 65535 < n {
            return None;
        }
    }
    Some((n, s.len()))
}

// The version whose second number starts at `from`, None if it is malformed.
fn minor_from(s: &[u8], from: usize, major: u32) -> Option<Version>
    ensures { result ≡ minor_from major (number (drop from s.now)) }
{
    let (minor, i) = number(s, from)?;
    if i < s.len() {
        return patch_from(s, i + 1, major, minor);
    }
    Some(Version {
        major,
        minor,
        ..Version::LEAST
    })
}

// The version whose third and last number starts at `from`.
fn patch_from(s: &[u8], from: usize, major: u32, minor: u32) -> Option<Version>
    ensures { result ≡ patch_from major minor (number (drop from s.now)) }
{
    let (patch, end) = number(s, from)?;
    if end < s.len() {
        return None;
    }
    Some(Version {
        major,
        minor,
        patch,
    })
}

impl Version {
    // The version of ninja whose manifests this edition reads.
    pub const OURS: Version = Version {
        major: 1,
        minor: 5,
        patch: 0,
    };

    // What a version has where its bytes name no number: "absent ones 0".
    pub const LEAST: Version = Version {
        major: 0,
        minor: 0,
        patch: 0,
    };

    pub fn read(s: &[u8]) -> Option<Version>
        ensures { result ≡ read_version s.now }
    {
        let (major, i) = number(s, 0)?;
        if i < s.len() {
            return minor_from(s, i + 1, major);
        }
        Some(Version {
            major,
            ..Version::LEAST
        })
    }

    // Whether this version is greater than the other.
    pub fn above(self, other: Version) -> bool
        ensures { result ≡ above self other }
    {
        (self.major, self.minor, self.patch) > (other.major, other.minor, other.patch)
    }

    // Whether a manifest that asks for this version is refused.
    pub fn refused(s: &[u8]) -> bool
        ensures { result ≡ refused_version s.now }
    {
        match Version::read(s) {
            Some(v) => v.above(Version::OURS),
            None => true,
        }
    }
}
