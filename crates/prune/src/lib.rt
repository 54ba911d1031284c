// Pruning a rule. The entry point is in `entry.rt`.
#![tactic(auto)]

mod entry;

pub use entry::{Counts, prune};
