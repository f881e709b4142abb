// The runner's rules: a table of steps, which of them may start, and what a start and a finish make of the table.
// Types and definitions alone.
#![tactic(auto)]

// A listed step as the runner keeps it, for C too: its number, its pool's number (0 is the empty pool), and 0 while
// it waits, 1 while it runs, 2 where it is done, 3 where it failed.
#[repr(C)]
#[derive(Clone, Copy)]
pub struct Job {
    pub step: u32,
    pub pool: u32,
    pub state: u32,
}
