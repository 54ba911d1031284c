// Conditions: `ExprCompiledBool::new` over lent words. Internal: the pass calls these on its work words.
#![tactic(auto)]

ghost use Rattle.std.specs.Prelude.{cond, ◌≡◌, ◌-◌};
ghost use Rattle.expr_bool.specs.Asked.{swapped, NewAsk, NewDone, LogicAsk, LogicDone, JoinAsk, JoinDone};
ghost use Rattle.expr_bool.specs.Asked.{SeqAsk, SeqDone, SlotAsk, SlotDone};

use buffer::put;
use ir::node::skip;
use ir::tree::expr_at;
use ir::write::{write_bool, write_head};
use purity::expr::{is_pure_infallible, is_pure_infallible_to_bool};
use tables::details::{Builtin1, LogicalBinOp};
use tables::exprs::ExprKind;

// A condition: a constant, or an expression that stands where it was asked for, with where it ends.
// An enum: it is what was made of an expression, with its data. No `map`: what is done to the place lends the words,
// which a closure would have to hold.
#[derive(Clone, Copy, Debug, PartialEq, Eq)]
pub enum Condition {
    Const(bool),
    Expr(usize),
}

// The slot of a condition: the words from low up to high, which may be destroyed.
#[derive(Clone, Copy, Debug, PartialEq, Eq)]
pub struct Slot {
    pub low: usize,
    pub high: usize,
}

// What an If has for a true condition and for a false one.
#[derive(Clone, Copy, Debug, PartialEq, Eq)]
pub struct Arms<T> {
    pub yes: T,
    pub no: T,
}

impl<T: Copy> Arms<T> {
    // The arm of a condition that is always `b`.
    pub fn of(self, b: bool) -> T
        ensures { result ≡ cond b self.yes self.no }
    {
        if b { self.yes } else { self.no }
    }

    // The arms of the condition's Not.
    pub fn swapped(self) -> Arms<T>
        ensures { result ≡ swapped self }
    {
        Arms {
            yes: self.no,
            no: self.yes,
        }
    }
}

// The expression at `at`, which ends at or below top, as a condition, from top on.
#[cycle(logical_bin_op_new)]
#[tactic(auto, using(crate::proofs::Steps::steps))]
pub fn new(words: &mut [u32], at: usize, top: usize) -> Condition
    requires { NewAsk words.old at top }
    ensures { NewDone words.old words.new at top result }
{
    if let Some(known) = is_pure_infallible_to_bool(words, at) {
        return Condition::Const(known.truth);
    }
    let node = expr_at(words, at);
    let first = node.first;
    match node.kind {
        ExprKind::Builtin1 if node.detail == Builtin1::Not as u32 => {
            let body = put(words, at, first, top);
            match new(words, first, body) {
                Condition::Const(b) => Condition::Const(!b),
                Condition::Expr(last) => Condition::Expr(last),
            }
        }
        ExprKind::LogicalBinOp => {
            let or = node.detail == LogicalBinOp::Or as u32;
            logical_bin_op(words, at, first, top, or)
        }
        _ => {
            let end = skip(words, at, 1);
            Condition::Expr(put(words, at, end, top))
        }
    }
}

// And, or Or where `or` is true, with its first part at `first`. A bool and no `LogicalBinOp`: it is the truth that
// decides, and all that is done with it, here and in `join`, is to compare it with a constant's truth.
#[cycle(logical_bin_op_new)]
#[tactic(auto, using(crate::proofs::Steps::own_put))]
fn logical_bin_op(words: &mut [u32], at: usize, first: usize, top: usize, or: bool) -> Condition
    requires { LogicAsk words.old at first top or }
    ensures { LogicDone words.old words.new at top or result }
{
    let body = put(words, at, first, top);
    let middle = skip(words, first, 1);
    match new(words, first, body) {
        Condition::Const(b) => {
            if b == or {
                Condition::Const(b)
            } else {
                new(words, middle, top)
            }
        }
        Condition::Expr(end) => {
            let right = new(words, middle, end);
            join(words, top, body, end, right, or)
        }
    }
}

// And or Or as a condition, from top on: its own words stand there, its left side at body, and its right side, if that
// is no constant, at end.
#[tactic(auto, using(crate::proofs::Sequels::join_put, crate::proofs::Sequels::join_ask))]
fn join(
    words: &mut [u32],
    top: usize,
    body: usize,
    end: usize,
    right: Condition,
    or: bool,
) -> Condition
    requires { JoinAsk words.old top body end right or }
    ensures { JoinDone words.old words.new top body end right or result }
{
    match right {
        Condition::Const(b) => {
            if b == or {
                // The right side decides, but the left one is kept for its effect.
                Condition::Expr(seq_const(words, top, body, end, b))
            } else {
                Condition::Expr(put(words, body, end, top))
            }
        }
        Condition::Expr(last) => Condition::Expr(last),
    }
}

// Seq of the expression at `body` and a constant, from top on: the constant alone where the expression is pure.
#[tactic(auto, using(crate::proofs::Sequels::side_some))]
fn seq_const(words: &mut [u32], top: usize, body: usize, end: usize, b: bool) -> usize
    requires { SeqAsk words.old top body end }
    ensures { SeqDone words.old words.new top body end b result }
{
    if is_pure_infallible(words, body).is_some() {
        return write_bool(words, top, b);
    }
    write_head(words, top, ExprKind::Seq, 0);
    write_bool(words, end, b)
}

// The expression at the front of a slot as a condition at the front of the same slot, made from top on.
#[tactic(auto, using(crate::proofs::Slots::slot_const))]
pub fn settle(words: &mut [u32], slot: Slot, top: usize) -> Condition
    requires { SlotAsk words.old slot.low (slot.high - slot.low) top }
    ensures { SlotDone words.old words.new slot.low (slot.high - slot.low) top result }
{
    match new(words, slot.low, top) {
        Condition::Const(b) => Condition::Const(b),
        Condition::Expr(end) => Condition::Expr(put(words, top, end, slot.low)),
    }
}
