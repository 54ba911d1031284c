// The entry points as C functions, for `rt lib` in crates/exports. The header is include/tinzoher.h.
#![tactic(auto)]

mod entry;
mod state;
