// Purity and truth of expressions, over any words in which one stands, with the Rust's names. Internal: the crate
// `verdict` calls these on words that were accepted, and the pass on words that it made.
#![tactic(auto)]

pub mod call;
pub mod expr;
