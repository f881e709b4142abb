// Words where a rule or a key is named.
#![tactic(auto)]

ghost use Rattle.std.specs.Prelude.{◌≡◌};
ghost use Rattle.spec.specs.Forms.{keyword, later_keyword, later_key, rule_word, key_word};
ghost use Rattle.scan_keywords.specs.Words.{word_cut};

use byte_order::equal;

// What a word is: a name, or one of those that fit no form (4) or are not yet in this edition (6).
#[derive(Clone, Copy)]
pub enum Word {
    Name,
    NoForm,
    NotYet,
}

pub fn keyword(w: &[u8]) -> bool
    ensures { result ≡ keyword w.now }
{
    equal(w, b"rule")
        || equal(w, b"build")
        || equal(w, b"default")
        || equal(w, b"include")
        || equal(w, b"subninja")
}

pub fn later_keyword(w: &[u8]) -> bool
    ensures { result ≡ later_keyword w.now }
{
    equal(w, b"pool")
}

pub fn later_key(w: &[u8]) -> bool
    ensures { result ≡ later_key w.now }
{
    equal(w, b"deps")
        || equal(w, b"dyndep")
        || equal(w, b"msvc_deps_prefix")
        || equal(w, b"pool")
        || equal(w, b"restat")
        || equal(w, b"rspfile")
        || equal(w, b"rspfile_content")
}

pub fn rule_word(w: &[u8]) -> Word
    ensures { word_cut w.now result ≡ rule_word w.now }
{
    if w.is_empty() || keyword(w) {
        return Word::NoForm;
    }
    if later_keyword(w) {
        return Word::NotYet;
    }
    Word::Name
}

pub fn key_word(w: &[u8]) -> Word
    ensures { word_cut w.now result ≡ key_word w.now }
{
    if w.is_empty() || keyword(w) {
        return Word::NoForm;
    }
    if later_keyword(w) || later_key(w) {
        return Word::NotYet;
    }
    Word::Name
}
