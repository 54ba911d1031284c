// The last block of a file, for whoever is handed its words one at a time (document 02, 2.2).
#![tactic(auto)]

mod entry;

pub use entry::LastBlock;
