// Raw paths and raw values of a line, and the bytes of a whole manifest: each scanner goes from a place of a lent
// slice to a place, or answers what it found there.
#![tactic(auto)]

pub mod manifest;
pub mod texts;

// What comes next in a list of paths: its end, a path from place to place, or a path with a bad `$` at a place.
#[derive(Clone, Copy)]
pub enum NextPath {
    Stop(usize),
    Path(usize, usize),
    BadDollar(usize),
}
