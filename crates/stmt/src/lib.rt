// `StmtsCompiled::expr` and `if_stmt` over work words. Internal: the pass over a rule calls these on expressions that
// it made.
#![tactic(auto)]

ghost use Rattle.std.specs.Prelude.{◌+◌, ◌<◌, ◌^◌, IfSome};
ghost use Rattle.ir.specs.Standing.{SkipOf};
ghost use Rattle.expr_bool.specs.Asked.{NewAsk};
ghost use Rattle.stmt.specs.Made.{WayAsk, WayDone, EndAsk, StayDone, ListPlace};
ghost use Rattle.stmt.specs.Made.{ExprAsk, ExprDone, IfAsk, IfDone, StepDone};

use buffer::put;
use expr_bool::{Arms, Condition, Slot, new};
use if_expr::{Test, test_at};
use ir::node::{skip, word_or_zero};
use ir::tree::expr_at;
use purity::call::as_type;
use purity::expr::{is_pure_infallible, is_test};
use runs::{Run, close_logic, first_of, settle_back, write_expr, write_if};
use tables::details::LogicalBinOp;
use tables::exprs::ExprKind;

// An expression statement that is not pure, by what is made of it: the statements of so many parts from a place on,
// those of one part, an if_stmt over the part at a place for And or (where it is true) Or, or the statement as it is.
// An enum and no closures: the crate `in_place` asks which way it is, and takes none. A bool and no `LogicalBinOp`: it
// says which arm gets the right part, and each use is an `if`, where a match would be longer.
#[derive(Clone, Copy, Debug, PartialEq, Eq)]
pub enum Way {
    Parts(usize, u32),
    Part(usize),
    Logic(usize, bool),
    Stays,
}

#[tactic(auto, using(crate::proofs::Ways::ways))]
pub fn way_at(words: &[u32], at: usize) -> Way
    requires { WayAsk words.now at }
    ensures { WayDone words.now at result }
{
    let node = expr_at(words, at);
    match node.kind {
        ExprKind::Tuple | ExprKind::List => Way::Parts(node.first, node.count),
        ExprKind::Builtin1 if is_test(node.detail) => Way::Part(node.first),
        ExprKind::LogicalBinOp => Way::Logic(node.first, node.detail == LogicalBinOp::Or as u32),
        ExprKind::Call => {
            // `expr_types` asks this too, in two lines: a function of both would have a longer contract.
            let callee = word_or_zero(words, node.first);
            if as_type(callee, node.detail, node.word) {
                return Way::Part(skip(words, node.first, 1));
            }
            Way::Stays
        }
        _ => Way::Stays,
    }
}

// Where the part at a place ends, of an expression that ends at `end`, as its last part does.
fn part_end(words: &[u32], part: usize, end: usize, last: bool) -> usize
    requires { EndAsk words.now part end last }
    ensures { SkipOf words.now part 1 result }
{
    if last {
        return end;
    }
    skip(words, part, 1)
}

// The condition at `at`, simplified, from top on, where an If statement over it stays an If: where it ends then.
pub fn settle_if(words: &mut [u32], at: usize, top: usize) -> Option<usize>
    requires { NewAsk words.old at top }
    ensures { StayDone words.old words.new at top result }
{
    match new(words, at, top) {
        Condition::Const(_) => None,
        Condition::Expr(last) => match test_at(words, top) {
            Test::Not(_) => None,
            Test::Seq(_) => None,
            Test::Stays => Some(last),
        },
    }
}

// Where the statements of the right side begin: those of an arm of an If whose lists begin at that place, or, where it
// is none, at top.
fn list_of(top: usize, lists: Option<usize>, or: bool) -> usize
    requires { IfSome lists (λ at. at + 2 < 2 ^ 64) }
    ensures { ListPlace top lists or result }
{
    match lists {
        Some(at) => first_of(at, or),
        None => top,
    }
}

// The statements of the expression from `at` up to `end`, which stands at the back of its slot from `low` on: from top
// on. `nodes` is how many nodes it has at most, and falls. The slot's ends stand apart, and in no struct: the slot of
// each part ends where the part does, so nearly every call would make it anew.
#[cycle(expr_if_stmt)]
#[tactic(auto, using(crate::proofs::Turns::starts))]
pub fn expr(words: &mut [u32], low: usize, at: usize, end: usize, top: usize, nodes: usize) -> Run
    requires { ExprAsk words.old low at end top nodes }
    ensures { ExprDone words.old words.new low at end top result }
{
    if is_pure_infallible(words, at).is_some() {
        return Run::empty(top);
    }
    let left = nodes - 1;
    match way_at(words, at) {
        Way::Parts(first, count) => {
            let mut run = Run::empty(top);
            let mut next = first;
            for i in 0..count {
                let part = next;
                next = part_end(words, part, end, i + 1 == count);
                let more = expr(words, low, part, next, run.end, left);
                run = run.extend(more);
            }
            run
        }
        Way::Part(part) => expr(words, low, part, end, top, left),
        Way::Logic(first, or) => {
            // The left part goes to the front of the slot, and the right part has the rest of it. Where an If over the
            // left one stays an If, the left one is simplified behind the place of its header, and the statements of
            // the right one are made in the list's place.
            let middle = skip(words, first, 1);
            let front = put(words, first, middle, low);
            let lists = settle_if(words, low, top + 1);
            let list = list_of(top, lists, or);
            let right = expr(words, front, middle, end, list, left);
            match lists {
                Some(lists) if right.count != 0 => close_logic(words, top, lists, right, or),
                _ => {
                    let moved = right.place(words, top);
                    let arms = moved.only(or);
                    let slot = Slot { low, high: end };
                    let made = if_stmt(words, slot, low, arms, moved.end, left);
                    made.place(words, top)
                }
            }
        }
        Way::Stays => write_expr(words, at, end, top),
    }
}

// One step of `if_stmt`: the statements are made; or what is left is an If over the part of a Not at a place, with the
// arms swapped; or the statements of a Seq's left part, and behind them an If over its right part, at two places; or
// the statements of the condition alone, at a place. An enum and no closures: the loop of `if_stmt` takes a Not or a
// Seq off without a call.
#[derive(Clone, Copy, Debug, PartialEq, Eq)]
pub enum Step {
    Made(Run),
    Not(usize),
    Seq(usize, usize),
    Bare(usize),
}

// The step for the condition at `at`, in its slot, with two runs between the slot and top. `nodes` is how many nodes
// the condition has at most.
#[tactic(auto, using(crate::proofs::Chains::steps))]
fn if_step(
    words: &mut [u32],
    slot: Slot,
    at: usize,
    arms: Arms<Run>,
    top: usize,
    nodes: usize,
) -> Step
    requires { IfAsk words.old slot.low at slot.high arms top nodes }
    ensures { StepDone words.old words.new slot.low at slot.high arms top nodes result }
{
    match settle_back(words, slot, at, top) {
        Condition::Const(b) => Step::Made(arms.of(b).place(words, top)),
        Condition::Expr(back) => match test_at(words, back) {
            Test::Not(part) => Step::Not(part),
            Test::Seq(first) => {
                let part = skip(words, first, 1);
                Step::Seq(first, part)
            }
            Test::Stays => {
                if (arms.yes.count == 0) & (arms.no.count == 0) {
                    return Step::Bare(back);
                }
                Step::Made(write_if(words, back, slot.high, arms, top))
            }
        },
    }
}

// The condition at `at`, in its slot, with two runs between the slot and top: the statements of the If, from top on.
// `nodes` is how many nodes the condition has at most. Not and Seq are taken off by a loop: their chains can be far
// longer than the 200 levels of a rule, as `if_expr` joins them.
#[cycle(expr_if_stmt)]
#[tactic(auto, using(crate::proofs::Chains::going_start, spec::proofs::Unroll::some_nodes))]
pub fn if_stmt(
    words: &mut [u32],
    slot: Slot,
    at: usize,
    mut arms: Arms<Run>,
    top: usize,
    nodes: usize,
) -> Run
    requires { IfAsk words.old slot.low at slot.high arms top nodes }
    ensures { IfDone words.old words.new slot.low at slot.high arms top result }
{
    let mut here = at;
    let mut run = Run::empty(top);
    let mut left = nodes;
    loop {
        match if_step(words, slot, here, arms, run.end, left) {
            Step::Made(made) => {
                return run.extend(made);
            }
            Step::Bare(back) => {
                let made = expr(words, slot.low, back, slot.high, run.end, left);
                return run.extend(made);
            }
            Step::Not(part) => {
                here = part;
                left -= 1;
                arms = arms.swapped();
                continue;
            }
            Step::Seq(first, part) => {
                left -= 1;
                let ahead = expr(words, slot.low, first, part, run.end, left);
                run = run.extend(ahead);
                here = part;
                continue;
            }
        }
    }
}
