// Several tables in one lent slice: specs and laws, the one store, and a number put in within a table.
#![tactic(auto)]

ghost use Rattle.std.specs.Prelude.{◌≡◌, ◌≤◌, ◌<◌, length, set};
ghost use Rattle.arena.specs.Inserted.{Shifted};

// Stores a number.
pub fn put(arena: &mut [u32], at: usize, value: usize)
    requires { (at < length arena.old) × (value < 4294967296) }
    ensures { arena.new ≡ set arena.old at value }
{
    arena[at] = value as u32;
}

// Puts a number in at place p of the first n. Those from p on move up by one, the last one first.
pub fn insert(table: &mut [u32], n: usize, p: usize, v: usize)
    requires { (p ≤ n) × (n < length table.old) × (v < 4294967296) }
    ensures { Shifted table.old n p v table.new }
{
    for i in (p..n).rev() {
        table[i + 1] = table[i];
    }
    put(table, p, v);
}
