// If over work words: `ExprCompiled::if_expr`. Internal: the pass calls it on a condition and two arms that it made.
#![tactic(auto)]

ghost use Rattle.std.specs.Prelude.{◌-◌};
ghost use Rattle.spec.specs.Pass.{if_expr};
ghost use Rattle.if_expr.specs.Arms.{TestAsk, TestDone, WriteAsk, WriteDone, IfAsk, IfDone, LeftAsk, StepDone};

use buffer::put;
use expr_bool::{Arms, Condition, Slot, settle};
use ir::node::skip;
use ir::tree::expr_at;
use ir::write::write_head;
use purity::expr::is_pure_infallible;
use tables::details::Builtin1;
use tables::exprs::ExprKind;

// Where an arm stands, or a condition that is made: words that stay, where those of a `Slot` may be destroyed.
#[derive(Clone, Copy, Debug, PartialEq, Eq)]
pub struct Arm {
    pub at: usize,
    pub end: usize,
}

// A condition by what is done with it: the part of a Not, the left part of a Seq, or neither.
// An enum and no closures: the crate `stmt` asks which it is too, and does something else with it.
#[derive(Clone, Copy, Debug, PartialEq, Eq)]
pub enum Test {
    Not(usize),
    Seq(usize),
    Stays,
}

// Which of these the expression at `at` is, with the place of that part.
#[tactic(auto, using(crate::proofs::Tests::tests))]
pub fn test_at(words: &[u32], at: usize) -> Test
    requires { TestAsk words.now at }
    ensures { TestDone words.now at result }
{
    let node = expr_at(words, at);
    match node.kind {
        ExprKind::Builtin1 if node.detail == Builtin1::Not as u32 => Test::Not(node.first),
        ExprKind::Seq => Test::Seq(node.first),
        _ => Test::Stays,
    }
}

// If with a condition and both arms, from top on, and where it ends.
#[tactic(auto, using(crate::proofs::Writes::asks))]
fn write_if(words: &mut [u32], condition: Arm, arms: Arms<Arm>, top: usize) -> usize
    requires { WriteAsk words.old condition.at condition.end arms top }
    ensures { WriteDone words.old words.new condition.at condition.end arms top result }
{
    let body = write_head(words, top, ExprKind::If, 0);
    let first = put(words, condition.at, condition.end, body);
    let second = put(words, arms.yes.at, arms.yes.end, first);
    put(words, arms.no.at, arms.no.end, second)
}

// One step of `if_expr`: the If is made and ends at a place; or what is left is an If over the part of a Not at a
// place, with the arms swapped; or one over the right part of a Seq at a place, to be made at another, behind the left
// part. An enum and no closures: one would have to hold words, slot and arms, which the loop of `if_expr` changes.
#[derive(Clone, Copy, Debug, PartialEq, Eq)]
pub enum Step {
    Made(usize),
    Not(usize),
    Seq(usize, usize),
}

// The step for a condition that is simplified already, at the front of its slot, which ends at `high`, with two arms
// between the slot and top.
#[tactic(auto, using(crate::proofs::Ways::seq_room))]
fn if_left(words: &mut [u32], condition: Arm, high: usize, arms: Arms<Arm>, top: usize) -> Step
    requires { LeftAsk words.old condition.at condition.end (high - condition.at) arms top }
    ensures { StepDone words.old words.new condition.at (high - condition.at) arms top result }
{
    match test_at(words, condition.at) {
        Test::Not(part) => Step::Not(part),
        Test::Seq(first) => {
            if let Some(next) = is_pure_infallible(words, first) {
                return Step::Seq(next, top);
            }
            let part = skip(words, first, 1);
            let body = write_head(words, top, ExprKind::Seq, 0);
            let behind = put(words, first, part, body);
            Step::Seq(part, behind)
        }
        Test::Stays => Step::Made(write_if(words, condition, arms, top)),
    }
}

// The condition at the front of its slot, with two arms between the slot and top: what `if_expr` makes of them, from
// top on, and where that ends. Not and Seq are taken off by a loop: their chains can be far longer than the 200 levels
// of a rule, as `if_expr` itself joins them.
#[tactic(auto, using(crate::proofs::Chains::going_slot))]
pub fn if_expr(words: &mut [u32], mut slot: Slot, mut arms: Arms<Arm>, top: usize) -> usize
    requires { IfAsk words.old slot.low (slot.high - slot.low) arms top }
    ensures { IfDone words.old words.new slot.low (slot.high - slot.low) arms top if_expr result }
{
    let mut to = top;
    loop {
        match settle(words, slot, to) {
            Condition::Const(b) => {
                let arm = arms.of(b);
                return put(words, arm.at, arm.end, to);
            }
            Condition::Expr(end) => {
                let condition = Arm { at: slot.low, end };
                match if_left(words, condition, slot.high, arms, to) {
                    Step::Made(last) => {
                        return last;
                    }
                    Step::Not(part) => {
                        slot.low = part;
                        arms = arms.swapped();
                        continue;
                    }
                    Step::Seq(part, place) => {
                        slot.low = part;
                        to = place;
                        continue;
                    }
                }
            }
        }
    }
}
