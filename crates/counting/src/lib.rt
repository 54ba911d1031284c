// How often truth is known: document 02, 2.13. The entry point is in `entry.rt`.
#![tactic(auto)]

mod entry;

pub use entry::{TruthCounts, truth_counts};
