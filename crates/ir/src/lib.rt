// Words as nodes: the walk over one tree, and the words of a node that is made. Where a node's payload and parts begin
// is known here; for words that nobody has accepted yet in `steps`, `quick`, `reader`, `kept_nodes` and `kept`; and of
// one kind each in `foldable`, `def_inline`, `expr` and `expr_types`.
// Words and a place stay two parameters: one struct of both goes through memory, and purity took up to 4.6 in 100 more
// instructions with it, and 9 KiB more stack at 199 levels.
#![tactic(auto)]

pub mod node;
pub mod tree;
pub mod write;
