// The constructors of expressions over work words: a node stands with its simplified parts, and the constructor leaves
// in its place what it makes of it. The crate `expr_pairs` has those of Seq, And and Or, `expr_types` those that tell
// types; the module `make` has Not's, and calls them all.
#![tactic(auto)]

pub mod make;
