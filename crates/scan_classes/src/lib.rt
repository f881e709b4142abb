// The 256 byte classes.
#![tactic(auto)]

ghost use Rattle.std.specs.Prelude.{◌≡◌};
ghost use Rattle.spec.specs.Bytes.{class_of};
ghost use Rattle.scan_classes.specs.Table.{classes};

// The numbers of the classes that are asked for by name. Up to SHORT lie the short-name bytes, up to DOT the name
// bytes.
pub const SHORT: u8 = 1;

pub const DOT: u8 = 2;

pub const SPACE: u8 = 3;

pub const NEWLINE: u8 = 4;

pub const DOLLAR: u8 = 5;

pub const COLON: u8 = 6;

pub const BAR: u8 = 7;

pub const EQUALS: u8 = 8;

pub const HASH: u8 = 9;

pub const OPEN_BRACE: u8 = 10;

pub const CLOSE_BRACE: u8 = 11;

pub const FORBIDDEN: u8 = 12;

// The table, made once and lent to whoever sorts bytes: a constant is built anew at every use.
pub fn table() -> [u8; 256]
    ensures { result ≡ classes }
{
    CLASS
}

fn wide(b: u8) -> usize
    ensures { result ≡ b }
{
    b as usize
}

pub fn class_in(t: &[u8; 256], b: u8) -> u8
    requires { t.now ≡ classes }
    ensures { result ≡ class_of b }
{
    t[wide(b)]
}

// The class of each byte.
const CLASS: [u8; 256] = [
    12, 0, 0, 0, 0, 0, 0, 0, 0, 12, 4, 0, 0, 12, 0, 0, 0, 0, 0, 0, 0, 0, 0, 0, 0, 0, 0, 0, 0, 0, 0,
    0, 3, 0, 0, 9, 5, 0, 0, 0, 0, 0, 0, 0, 0, 1, 2, 0, 1, 1, 1, 1, 1, 1, 1, 1, 1, 1, 6, 0, 0, 8, 0,
    0, 0, 1, 1, 1, 1, 1, 1, 1, 1, 1, 1, 1, 1, 1, 1, 1, 1, 1, 1, 1, 1, 1, 1, 1, 1, 1, 1, 0, 0, 0, 0,
    1, 0, 1, 1, 1, 1, 1, 1, 1, 1, 1, 1, 1, 1, 1, 1, 1, 1, 1, 1, 1, 1, 1, 1, 1, 1, 1, 1, 10, 7, 11,
    0, 0, 0, 0, 0, 0, 0, 0, 0, 0, 0, 0, 0, 0, 0, 0, 0, 0, 0, 0, 0, 0, 0, 0, 0, 0, 0, 0, 0, 0, 0, 0,
    0, 0, 0, 0, 0, 0, 0, 0, 0, 0, 0, 0, 0, 0, 0, 0, 0, 0, 0, 0, 0, 0, 0, 0, 0, 0, 0, 0, 0, 0, 0, 0,
    0, 0, 0, 0, 0, 0, 0, 0, 0, 0, 0, 0, 0, 0, 0, 0, 0, 0, 0, 0, 0, 0, 0, 0, 0, 0, 0, 0, 0, 0, 0, 0,
    0, 0, 0, 0, 0, 0, 0, 0, 0, 0, 0, 0, 0, 0, 0, 0, 0, 0, 0, 0, 0, 0, 0, 0, 0, 0, 0, 0, 0, 0, 0, 0,
    0, 0,
];
