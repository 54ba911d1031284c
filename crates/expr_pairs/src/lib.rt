// The constructors of Seq, And and Or over work words, with the Rust's names. Internal: `make` of the crate `expr`
// calls these. Each is handed an expression as it is made, and answers the place behind what it made.
#![tactic(auto)]

ghost use Rattle.std.specs.Prelude.{cond, length};
ghost use Rattle.buffer.specs.Copy.{PutDone};
ghost use Rattle.expr_forms.specs.Made.{Handed, MadeOf};
ghost use Rattle.expr_pairs.specs.Pairs.{seqs, seq_made, logics, logic_made, Kept};

use buffer::put;
use expr_forms::Whole;
use purity::expr::{is_pure_infallible, is_pure_infallible_to_bool};
use tables::details::LogicalBinOp;

// Seq: a pure left is dropped.
#[tactic(auto, using(crate::proofs::Seqs::steps))]
pub fn seq(words: &mut [u32], whole: Whole) -> usize
    requires { Handed seqs words.old whole }
    ensures { MadeOf seqs seq_made words.old words.new whole result }
{
    let first = whole.node.first;
    if let Some(next) = is_pure_infallible(words, first) {
        return put(words, next, whole.end, whole.at);
    }
    whole.end
}

// One of a node's two parts in the node's place. The places come singly: a struct of them would be made for this call.
fn keep(words: &mut [u32], at: usize, first: usize, next: usize, end: usize, left: bool) -> usize
    requires { Kept (length words.old) at first next end }
    ensures { PutDone words.old words.new (cond left first next) (cond left next end) at result }
{
    if left {
        return put(words, first, next, at);
    }
    put(words, next, end, at)
}

// And or Or with a left of known truth: the left if it decides, else the right.
#[tactic(auto, using(crate::proofs::Logics::steps))]
pub fn logical_bin_op(words: &mut [u32], whole: Whole) -> usize
    requires { Handed logics words.old whole }
    ensures { MadeOf logics logic_made words.old words.new whole result }
{
    let first = whole.node.first;
    let detail = whole.node.detail;
    match is_pure_infallible_to_bool(words, first) {
        Some(left) => {
            // For yes the left of an Or counts, for no the left of an And.
            let counts = left.truth == (detail == LogicalBinOp::Or as u32);
            keep(words, whole.at, first, left.next, whole.end, counts)
        }
        None => whole.end,
    }
}
