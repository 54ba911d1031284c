// The stored form of a rule: blocks of 128 words in a file (document 01, the end of 'Words').
#![tactic(auto)]

mod entry;
mod load;
mod store;

pub use entry::{read_blocks, write_blocks};
