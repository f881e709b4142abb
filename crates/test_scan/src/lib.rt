// Scanners, card, bundle, target list and table of names for Rust: what tests and benchmarks outside call, on numbers
// and slices alone. Each is total and answers a number that specs/ defines for every input, and requires nothing.
#![tactic(auto)]

pub mod bundles;
pub mod cards;
pub mod name_tables;
pub mod scanners;
pub mod target_lists;
