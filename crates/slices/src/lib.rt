// Lent slices: a byte found, bytes copied, numbers read, places cleared.
#![tactic(auto)]

pub mod bytes;
pub mod words;
