// The keys of a rule: each by its number, and the other way round.
#![tactic(auto)]

ghost use Rattle.std.specs.Prelude.{◌≡◌, [], ◌<◌, get_or};
ghost use Rattle.spec.specs.Text.{key_name, key_names, rule_keys, key_number};
ghost use Rattle.hold_keys.specs.Names.{names_joined};

use byte_order::equal;
use spec::Key;

// How many keys there are, and the number of every name that is none.
pub const RULE_KEYS: usize = 5;

// The number of a key, and RULE_KEYS for every other name.
pub fn key_number(name: &[u8]) -> usize
    ensures { result ≡ key_number name.now }
{
    if equal(name, b"command") {
        return 0;
    }
    if equal(name, b"description") {
        return 1;
    }
    if equal(name, b"generator") {
        return 2;
    }
    if equal(name, b"depfile") {
        return 3;
    }
    if equal(name, b"pool") {
        return 4;
    }
    RULE_KEYS
}

pub fn number_of(key: Key) -> usize
    ensures { result ≡ key_number (key_name key) }
{
    match key {
        Key::Command => 0,
        Key::Description => 1,
        Key::Generator => 2,
        Key::Depfile => 3,
        Key::Pool => 4,
    }
}

// The names of the keys one behind another, made once and lent: no function returns bytes of its own.
pub fn key_names() -> [u8; 38]
    ensures { result ≡ names_joined }
{
    *b"commanddescriptiongeneratordepfilepool"
}

pub fn key_name(names: &[u8; 38], k: usize) -> &[u8]
    requires { (names.now ≡ names_joined) × (k < rule_keys) }
    ensures { result.now ≡ get_or key_names k [] }
{
    let all: &[u8] = names;
    match k {
        0 => &all[0..7],
        1 => &all[7..18],
        2 => &all[18..27],
        3 => &all[27..34],
        _ => &all[34..38],
    }
}
