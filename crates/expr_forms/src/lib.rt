// An expression as it is made, and definitions and lemmas on it: what a constructor of expressions over work words is
// asked, and what it leaves (specs/); expressions by their words, and where they and their parts stand (proofs/). The
// crates with the constructors cite these.
#![tactic(auto)]

use ir::tree::Node;
use tables::exprs::ExprKind;

// An expression over work words that is handed to its constructor: where it stands, its node, and the place behind it.
#[derive(Clone, Copy)]
pub struct Whole {
    pub at: usize,
    pub node: Node<ExprKind>,
    pub end: usize,
}
