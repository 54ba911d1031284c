// An expression that stands behind the place of its statement's header: it becomes statements there, and a condition is
// simplified there. Internal: the pass calls these on expressions that it made.
#![tactic(auto)]

ghost use Rattle.in_place.specs.InPlace.{LiftAsk, LiftDone, PlaceAsk, PlaceDone, SettleAsk, SettleDone};

use buffer::put;
use cores::core_at;
use ir::node::word_or_zero;
use ir::write::write_head;
use optimize::stays_at;
use purity::expr::is_pure_infallible;
use runs::Run;
use stmt::{Way, expr, settle_if, way_at};
use tables::exprs::ExprKind;
use tables::header::kind_of;
use tables::stmts::StmtKind;
use walk::weigh;

// The expression behind top, up to `end`, at the back of a slot of its weight from top on: where the slot ends.
#[tactic(auto, using(spec::proofs::Weights::expr_weight))]
pub fn lift(words: &mut [u32], top: usize, end: usize) -> usize
    requires { LiftAsk words.old top end }
    ensures { LiftDone words.old words.new top end result }
{
    let body = top + 1;
    let high = top + weigh(words, body).weight;
    let size = end - body;
    // A copy does not go up onto its own words, so it goes past the slot first.
    let past = high + 1;
    let last = put(words, body, end, past);
    let back = high - size;
    put(words, past, last, back);
    high
}

// The statements of the expression behind top, up to `end`: from top on.
#[tactic(auto, using(spec::proofs::Weights::expr_weight, spec::proofs::Weights::some_weight))]
pub fn expr_in_place(words: &mut [u32], top: usize, end: usize) -> Run
    requires { PlaceAsk words.old top end }
    ensures { PlaceDone words.old words.new top end result }
{
    let body = top + 1;
    if is_pure_infallible(words, body).is_some() {
        return Run::empty(top);
    }
    if let Way::Stays = way_at(words, body) {
        write_head(words, top, StmtKind::Expr, 0);
        return Run::single(top, end);
    }
    let high = lift(words, top, end);
    let size = end - body;
    let back = high - size;
    let core = core_at(words, back);
    let nodes = high - core;
    let made = expr(words, top, core, high, high, nodes);
    made.place(words, top)
}

// The condition from `at` up to `end`, simplified in its place, where an If statement over it stays an If: where it
// ends then. Else the condition is as it was.
#[tactic(auto, using(spec::proofs::Weights::expr_weight))]
pub fn settle_in_place(words: &mut [u32], at: usize, end: usize) -> Option<usize>
    requires { SettleAsk words.old at end }
    ensures { SettleDone words.old words.new at end result }
{
    if stays_at(words, at) {
        return Some(end);
    }
    if kind_of(word_or_zero(words, at)) != ExprKind::LogicalBinOp as u32 {
        return None;
    }
    let last = settle_if(words, at, end)?;
    Some(put(words, end, last, at))
}
