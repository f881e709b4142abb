// The table of everything that a manifest binds: file variables, rules with their keys, and the lines of steps'
// blocks.
#![tactic(auto)]

ghost use Rattle.std.specs.Prelude.{◌≡◌, List, [], ◌∷◌, ℕ, ◌+◌, ◌*◌, ◌^◌, ◌≤◌, ◌<◌, length, set};
ghost use Rattle.lists.specs.Bytes.{less_bytes};
ghost use Rattle.hold_bindings.specs.Log.{Logged, logged, entering, back_to, entry_at, is_named, newest, Scoping, scoping_of, newest_from};
ghost use Rattle.hold_bindings.specs.Index.{key_at};
ghost use Rattle.hold_bindings.specs.Held.{max_rows, scopes_at, current_at, parents_at, HoldsScopes, HoldsBindings, SoundBindings, SoundScopes, HasScope, HasScopeRoom, HasBackRoom, FewScopes, HasEntry, HasRowRoom, HasRoom, EntryRoom, entry_start, ValueAt, PlaceOf, Pushed, Added, Scoped};

use arena::insert;
use byte_order::{equal, less};
use slices::bytes::copy_at;
use slices::words::at;
use spec::limits::{BINDINGS, NAME, RULES, WRITTEN};

// The most scopes that there may be.
pub const SCOPES: usize = 64;

// The most entries that a manifest may have: bindings, rules, and two marks for each scope.
pub const ENTRIES: usize = BINDINGS + RULES + 2 * SCOPES;

// The owner of marks.
const MARKS: usize = 2;

// Where the index begins: behind three numbers for each entry.
const INDEX: usize = 3 * ENTRIES;

// Room for the texts of all entries, and for the rows and the index.
pub const TEXTS: usize = WRITTEN + ENTRIES * NAME;

// Behind the index: how many scopes there are, the current one, and for each its parent and one more, or 0.
const SCOPE_COUNT: usize = INDEX + ENTRIES;

const CURRENT: usize = SCOPE_COUNT + 1;

const PARENTS: usize = SCOPE_COUNT + 2;

pub const ROWS: usize = PARENTS + SCOPES;

// A part of the texts.
#[derive(Clone, Copy)]
pub struct ValuePlace {
    pub from: usize,
    pub to: usize,
}

// Where the name of entry k starts.
fn start(bind: &[u32], k: usize) -> usize
    requires { (3 * k ≤ length bind.now) × (k < 2 ^ 32) }
    ensures { result ≡ entry_start bind.now k }
{
    if k == 0 { 0 } else { at(bind, 3 * k - 2) }
}

pub fn entry_name<'a, 'b>(texts: &'a [u8], bind: &'b [u32], k: usize) -> &'a [u8]
    requires { HasEntry texts.now bind.now k }
    ensures { (log : List Logged) (count : ℕ) → HoldsBindings log texts.now bind.now count → k < count → result.now ≡ (entry_at k log).name }
{
    let from = start(bind, k);
    let to = at(bind, 3 * k);
    &texts[from..to]
}

// Where the value of entry k lies in the texts.
pub fn value_place(texts: &[u8], bind: &[u32], k: usize) -> ValuePlace
    requires { HasEntry texts.now bind.now k }
    ensures { ValueAt texts.now bind.now k result }
{
    let from = at(bind, 3 * k);
    let to = at(bind, 3 * k + 1);
    ValuePlace { from, to }
}

pub fn value<'a, 'b>(texts: &'a [u8], bind: &'b [u32], k: usize) -> &'a [u8]
    requires { HasEntry texts.now bind.now k }
    ensures { (log : List Logged) (count : ℕ) → HoldsBindings log texts.now bind.now count → k < count → result.now ≡ (entry_at k log).value }
{
    let p = value_place(texts, bind, k);
    &texts[p.from..p.to]
}

// Whether entry k has this owner and this name.
fn is_named(texts: &[u8], bind: &[u32], k: usize, owner: usize, wanted: &[u8]) -> bool
    requires { HasEntry texts.now bind.now k }
    ensures { (log : List Logged) (count : ℕ) → HoldsBindings log texts.now bind.now count → k < count → result ≡ is_named owner wanted.now (entry_at k log) }
{
    at(bind, 3 * k + 2) == owner && equal(wanted, entry_name(texts, bind, k))
}

// Whether this owner and this name come before those of entry k. It and `place_of` are built into what calls them: with
// a call of `place_of` in each, the lookups for texts took a fifth to a third more instructions.
#[inline(always)]
fn is_before(texts: &[u8], bind: &[u32], k: usize, owner: usize, wanted: &[u8]) -> bool
    requires { HasEntry texts.now bind.now k }
    ensures { (log : List Logged) (count : ℕ) → HoldsBindings log texts.now bind.now count → k < count → result ≡ less_bytes (owner ∷ wanted.now) (key_at log k) }
{
    let o = at(bind, 3 * k + 2);
    // a match on `owner.cmp(&o)` is no plainer: each of its three arms would answer what these tests do
    if owner < o {
        return true;
    }
    if o < owner {
        return false;
    }
    less(wanted, entry_name(texts, bind, k))
}

// Where the index has the first entry that comes after this owner and this name, by halving.
#[inline(always)]
fn place_of(texts: &[u8], bind: &[u32], count: usize, owner: usize, wanted: &[u8]) -> usize
    requires { SoundBindings texts.now bind.now count }
    ensures { PlaceOf texts.now bind.now count owner wanted.now result }
{
    let mut low = 0;
    let mut high = count;
    while low < high {
        let mid = low + (high - low) / 2;
        if is_before(texts, bind, at(bind, INDEX + mid), owner, wanted) {
            high = mid;
        } else {
            low = mid + 1;
        }
    }
    low
}

// The newest entry of this owner and this name.
pub fn newest(
    texts: &[u8],
    bind: &[u32],
    count: usize,
    owner: usize,
    wanted: &[u8],
) -> Option<usize>
    requires { SoundBindings texts.now bind.now count }
    ensures { (log : List Logged) → HoldsBindings log texts.now bind.now count → result ≡ newest owner wanted.now log }
{
    let p = place_of(texts, bind, count, owner, wanted);
    if p == 0 {
        return None;
    }
    let k = at(bind, INDEX + (p - 1));
    if is_named(texts, bind, k, owner, wanted) {
        Some(k)
    } else {
        None
    }
}

// Makes the table one of no entries and of one scope.
pub fn begin_bindings(bind: &mut [u32])
    requires { max_rows ≤ length bind.old }
    ensures { bind.new ≡ set (set (set bind.old scopes_at 1) current_at 0) parents_at 0 }
{
    bind[SCOPE_COUNT] = 1;
    bind[CURRENT] = 0;
    bind[PARENTS] = 0;
}

// The scope that is read in.
pub fn current_scope(bind: &[u32]) -> usize
    requires { (max_rows ≤ length bind.now) × SoundScopes bind.now }
    ensures { (g : Scoping) → HoldsScopes g bind.now → result ≡ g.current }
{
    at(bind, CURRENT)
}

// The newest entry of a name that is seen from a scope: its own, or the first outward that has one.
pub fn newest_from(
    texts: &[u8],
    bind: &[u32],
    count: usize,
    scope: usize,
    wanted: &[u8],
) -> Option<usize>
    requires { HasScope texts.now bind.now count scope }
    ensures { (log : List Logged) → HoldsBindings log texts.now bind.now count → result ≡ newest_from scope wanted.now log }
{
    let mut k = scope;
    loop {
        if let Some(e) = newest(texts, bind, count, 3 * k, wanted) {
            return Some(e);
        }
        let parent = at(bind, PARENTS + k);
        if parent == 0 {
            return None;
        }
        k = parent - 1;
    }
}

// The same from the scope that is read in.
pub fn newest_seen(texts: &[u8], bind: &[u32], count: usize, wanted: &[u8]) -> Option<usize>
    requires { SoundBindings texts.now bind.now count }
    ensures { (log : List Logged) → HoldsBindings log texts.now bind.now count → result ≡ newest_from (scoping_of log).current wanted.now log }
{
    newest_from(texts, bind, count, current_scope(bind), wanted)
}

// The three numbers of entry k.
fn put_row(bind: &mut [u32], k: usize, mid: usize, to: usize, owner: usize)
    requires { (3 * k + 2 < length bind.old) × (k < 2 ^ 32) × (mid < 2 ^ 32) × (to < 2 ^ 32) × (owner < 2 ^ 32) }
    ensures { bind.new ≡ set (set (set bind.old (3 * k) mid) (3 * k + 1) to) (3 * k + 2) owner }
{
    let i = 3 * k;
    bind[i] = mid as u32;
    bind[i + 1] = to as u32;
    bind[i + 2] = owner as u32;
}

// One entry more in the texts and the rows.
fn push_row(
    texts: &mut [u8],
    bind: &mut [u32],
    count: usize,
    owner: usize,
    name: &[u8],
    value: &[u8],
)
    requires { HasRowRoom texts.old bind.old count (logged owner name.now value.now) }
    ensures { Pushed texts.old bind.old count (logged owner name.now value.now) texts.new bind.new }
{
    let from = start(bind, count);
    let mid = from + name.len();
    let to = mid + value.len();
    copy_at(texts, from, name);
    copy_at(texts, mid, value);
    put_row(bind, count, mid, to, owner);
}

// One entry more in the texts, the rows and the index.
fn add_entry(
    texts: &mut [u8],
    bind: &mut [u32],
    count: usize,
    owner: usize,
    name: &[u8],
    value: &[u8],
)
    requires { HasRowRoom texts.old bind.old count (logged owner name.now value.now) }
    ensures { Added texts.old bind.old count (logged owner name.now value.now) texts.new bind.new }
{
    let p = place_of(texts, bind, count, owner, name);
    push_row(texts, bind, count, owner, name, value);
    insert(&mut bind[INDEX..], count, p, count);
}

// One entry more, which is no mark.
pub fn push(
    texts: &mut [u8],
    bind: &mut [u32],
    count: usize,
    owner: usize,
    name: &[u8],
    value: &[u8],
)
    requires { HasRoom texts.old bind.old count (logged owner name.now value.now) }
    ensures { (log : List Logged) → EntryRoom log texts.old bind.old count (logged owner name.now value.now) → HoldsBindings (logged owner name.now value.now ∷ log) texts.new bind.new (count + 1) }
{
    add_entry(texts, bind, count, owner, name, value);
}

// A new scope inside the current one becomes the current one.
fn put_scope(bind: &mut [u32])
    requires { (max_rows ≤ length bind.old) × FewScopes bind.old }
    ensures { Scoped bind.old [] bind.new }
{
    let scopes = at(bind, SCOPE_COUNT);
    let current = at(bind, CURRENT);
    bind[PARENTS + scopes] = (current + 1) as u32;
    bind[SCOPE_COUNT] = (scopes + 1) as u32;
    bind[CURRENT] = scopes as u32;
}

// A new scope inside the current one is entered.
pub fn enter_scope(texts: &mut [u8], bind: &mut [u32], count: usize)
    requires { HasScopeRoom texts.old bind.old count }
    ensures { (log : List Logged) → HoldsBindings log texts.old bind.old count → HoldsBindings (entering ∷ log) texts.new bind.new (count + 1) }
{
    add_entry(texts, bind, count, MARKS, b"", b"");
    put_scope(bind);
}

// Scope k is gone back to.
pub fn back_to(texts: &mut [u8], bind: &mut [u32], count: usize, k: usize)
    requires { HasBackRoom texts.old bind.old count k }
    ensures { (log : List Logged) → HoldsBindings log texts.old bind.old count → HoldsBindings (back_to k ∷ log) texts.new bind.new (count + 1) }
{
    let name = [k as u8];
    add_entry(texts, bind, count, MARKS, &name, b"");
    bind[CURRENT] = k as u32;
}
