// `StmtsCompiled::optimize`: the pass over statements and their lists, over work words. Internal: the crate `prune`
// calls it on a rule that it accepted and copied.
#![tactic(auto)]

ghost use Rattle.std.specs.Prelude.{◌≡◌, ◌||◌, eqb, leb};
ghost use Rattle.tables.specs.Kinds.{stmt_number};
ghost use Rattle.pass.specs.Pruned.{StmtAsk, StmtDone, ListAsk, ListDone};
ghost use Rattle.pass.specs.Pruned.{ExprAsk, ExprDone, PairAsk, PairDone, PartsAsk, PartsDone, SimpleAsk};
ghost use Rattle.pass.specs.Pruned.{IfAsk, SlottedAsk, CloseAsk, CloseDone, ForAsk, BodyAsk, BodyDone};

use buffer::put;
use expr_bool::{Arms, Slot};
use in_place::{expr_in_place, lift, settle_in_place};
use ir::node::word_or_zero;
use ir::tree::{Node, leaf_at, stmt_at};
use ir::write::write_word;
use optimize::{Optimized, optimize};
use runs::{Run, for_stmt};
use stmt::if_stmt;
use tables::exprs::{ExprKind, is_constant};
use tables::header::{detail_of, kind_of};
use tables::kind::Kind;
use tables::stmts::StmtKind;
use walk::{list_at, list_end};

// Where a statement or list that was optimized ends, the run that was made of it, and how many foldable places were
// met.
#[derive(Clone, Copy, Debug, PartialEq, Eq)]
pub struct Pruned {
    pub next: usize,
    pub run: Run,
    pub foldable: usize,
}

// The expression at `first` as a statement: optimized behind the place of the statement's header.
#[tactic(auto, using(crate::proofs::Stated::stated))]
fn optimize_expr(words: &mut [u32], first: usize, top: usize) -> Pruned
    requires { ExprAsk words.old first top }
    ensures { ExprDone words.old words.new first top result }
{
    let h = word_or_zero(words, first);
    if is_constant(h) {
        // A constant is pure.
        let node = leaf_at(words, first, ExprKind::Const, detail_of(h));
        return Pruned {
            next: node.first,
            run: Run::empty(top),
            foldable: 0,
        };
    }
    let body = top + 1;
    let made = optimize(words, first, body);
    let run = expr_in_place(words, top, made.end);
    Pruned {
        next: made.next,
        run,
        foldable: made.foldable,
    }
}

// A target and an expression behind it that were optimized: where the two end, where the optimized expression begins
// and ends, and how many foldable places were met. No `Optimized` in it: the one of the two is never asked for whole.
#[derive(Clone, Copy, Debug, PartialEq, Eq)]
pub struct Pair {
    pub next: usize,
    pub over: usize,
    pub end: usize,
    pub foldable: usize,
}

// The target at `at` and the expression behind it, optimized, from top on.
#[tactic(auto, using(crate::proofs::Pairs::pair_first, crate::proofs::Pairs::pair_second))]
fn optimize_pair(words: &mut [u32], at: usize, top: usize) -> Pair
    requires { PairAsk words.old at top }
    ensures { PairDone words.old words.new at top result }
{
    let target = optimize(words, at, top);
    let over = target.end;
    let value = optimize(words, target.next, over);
    let foldable = target.foldable + value.foldable;
    Pair {
        next: value.next,
        over,
        end: value.end,
        foldable,
    }
}

// The parts of a statement that stays, each optimized, from top on: none, an expression, or a target and an expression.
// `optimize_parts` of `optimize` has one sort for all its parts.
#[tactic(auto, using(crate::proofs::Simples::parts_one))]
fn optimize_parts(words: &mut [u32], at: usize, count: u32, top: usize) -> Optimized
    requires { PartsAsk words.old at count top }
    ensures { PartsDone words.old words.new at count top result }
{
    if count == 0 {
        return Optimized {
            next: at,
            end: top,
            foldable: 0,
        };
    }
    if count == 1 {
        return optimize(words, at, top);
    }
    let pair = optimize_pair(words, at, top);
    Optimized {
        next: pair.next,
        end: pair.end,
        foldable: pair.foldable,
    }
}

// Whether a statement of this kind is a Return, a Break or a Continue.
fn exits(kind: StmtKind) -> bool
    ensures { result ≡ eqb (stmt_number kind) 33 || leb 39 (stmt_number kind) }
{
    matches!(
        kind,
        StmtKind::Return | StmtKind::Break | StmtKind::Continue
    )
}

// A statement whose own words and parts stay, each part optimized: PossibleGc, Return, Assign, AssignModify, Break and
// Continue.
#[tactic(auto, using(crate::proofs::Simples::simple_put, crate::proofs::Simples::simple_parts))]
fn optimize_simple(words: &mut [u32], at: usize, node: Node<StmtKind>, top: usize) -> Pruned
    requires { SimpleAsk words.old at node top }
    ensures { StmtDone words.old words.new at top result }
{
    let body = put(words, at, node.first, top);
    let parts = optimize_parts(words, node.first, node.count, body);
    let last = exits(node.kind);
    let run = Run {
        at: top,
        end: parts.end,
        count: 1,
        last,
    };
    Pruned {
        next: parts.next,
        run,
        foldable: parts.foldable,
    }
}

// The statement at `at`, which ends at or below top, optimized, from top on.
#[cycle(optimize_body_optimize_for_optimize_if_optimize_list_optimize_stmt_slotted_if)]
#[tactic(auto, using(crate::proofs::Heads::kinds))]
pub fn optimize_stmt(words: &mut [u32], at: usize, top: usize) -> Pruned
    requires { StmtAsk words.old at top }
    ensures { StmtDone words.old words.new at top result }
{
    let kind = kind_of(words[at]);
    // The frequent kinds by tests: a match becomes a jump by a table, which is mispredicted in a row of Ifs. Nothing
    // but these tests asks for the kind, so it stays a number.
    if kind == StmtKind::Expr as u32 {
        return optimize_expr(words, at + 1, top);
    }
    if kind == StmtKind::If as u32 {
        return optimize_if(words, at, top);
    }
    if kind == StmtKind::For as u32 {
        return optimize_for(words, at, top);
    }
    let node = stmt_at(words, at);
    optimize_simple(words, at, node, top)
}

// The If at `at`: where an If over the optimized condition stays one, the condition and both lists, each behind the
// other.
#[cycle(optimize_body_optimize_for_optimize_if_optimize_list_optimize_stmt_slotted_if)]
#[tactic(auto, using(crate::proofs::Branches::branches))]
fn optimize_if(words: &mut [u32], at: usize, top: usize) -> Pruned
    requires { IfAsk words.old at top }
    ensures { StmtDone words.old words.new at top result }
{
    let first = at + 1;
    let body = put(words, at, first, top);
    let test = optimize(words, first, body);
    match settle_in_place(words, body, test.end) {
        None => slotted_if(words, at, test, top),
        Some(lists) => {
            let yes = optimize_body(words, test.next, lists);
            let no = optimize_body(words, yes.next, yes.end);
            let run = close_if(words, top, lists, no.end);
            let arms = yes.foldable + no.foldable;
            let foldable = test.foldable + arms;
            Pruned {
                next: no.next,
                run,
                foldable,
            }
        }
    }
}

// The If from `at` up to `end`, whose condition is simplified and ends where its lists begin: where both lists are
// empty, a word each, the condition as a statement.
#[tactic(auto, using(crate::proofs::Branches::close_place, crate::proofs::Branches::close_order))]
fn close_if(words: &mut [u32], at: usize, lists: usize, end: usize) -> Run
    requires { CloseAsk words.old at lists end }
    ensures { CloseDone words.old words.new at lists end result }
{
    let size = end - lists;
    if size == 2 {
        return expr_in_place(words, at, lists);
    }
    Run::single(at, end)
}

// The If at `at`, whose condition was optimized behind top: the condition in a slot, the runs of its arms behind it,
// and what is made of them moved down.
#[cycle(optimize_body_optimize_for_optimize_if_optimize_list_optimize_stmt_slotted_if)]
#[tactic(auto, using(crate::proofs::Choices::choices))]
fn slotted_if(words: &mut [u32], at: usize, test: Optimized, top: usize) -> Pruned
    requires { SlottedAsk words.old at test top }
    ensures { StmtDone words.old words.new at top result }
{
    let end = test.end;
    let high = lift(words, top, end);
    let body = top + 1;
    let size = end - body;
    let back = high - size;
    let yes = optimize_list(words, test.next, high);
    let no = optimize_list(words, yes.next, yes.run.end);
    let runs = Arms {
        yes: yes.run,
        no: no.run,
    };
    let slot = Slot { low: top, high };
    let made = if_stmt(words, slot, back, runs, no.run.end, size);
    let run = made.place(words, top);
    let arms = yes.foldable + no.foldable;
    let foldable = test.foldable + arms;
    Pruned {
        next: no.next,
        run,
        foldable,
    }
}

// The For at `at`: its target, what it loops over, and its list, each behind the other.
#[cycle(optimize_body_optimize_for_optimize_if_optimize_list_optimize_stmt_slotted_if)]
#[tactic(auto, using(crate::proofs::Loops::for_pair, crate::proofs::Loops::for_ask))]
fn optimize_for(words: &mut [u32], at: usize, top: usize) -> Pruned
    requires { ForAsk words.old at top }
    ensures { StmtDone words.old words.new at top result }
{
    let first = at + 1;
    let body = put(words, at, first, top);
    let pair = optimize_pair(words, first, body);
    let inner = optimize_body(words, pair.next, pair.end);
    let run = for_stmt(words, top, pair.over, inner.end);
    let foldable = pair.foldable + inner.foldable;
    Pruned {
        next: inner.next,
        run,
        foldable,
    }
}

// The list at `at`, which ends at or below top, optimized, from top on with its count word.
#[cycle(optimize_body_optimize_for_optimize_if_optimize_list_optimize_stmt_slotted_if)]
fn optimize_body(words: &mut [u32], at: usize, top: usize) -> Optimized
    requires { BodyAsk words.old at top }
    ensures { BodyDone words.old words.new at top result }
{
    let list = top + 1;
    let inner = optimize_list(words, at, list);
    let count = inner.run.count as u32;
    write_word(words, top, count);
    Optimized {
        next: inner.next,
        end: inner.run.end,
        foldable: inner.foldable,
    }
}

// The list at `at`, which ends at or below top, optimized, as a run from top on. The pass leaves a list behind a Break,
// a Continue or a Return.
#[cycle(optimize_body_optimize_for_optimize_if_optimize_list_optimize_stmt_slotted_if)]
#[tactic(auto, using(crate::proofs::Rows::loop_start, crate::proofs::Rows::loop_again))]
pub fn optimize_list(words: &mut [u32], at: usize, top: usize) -> Pruned
    requires { ListAsk words.old at top }
    ensures { ListDone words.old words.new at top result }
{
    let list = list_at(words, at);
    let mut next = list.first;
    let mut run = Run::empty(top);
    let mut foldable = 0;
    // Document 01 asks for a labelled loop that is left from inside; this one is left by the answer itself.
    'statements: for _i in 0..list.count {
        let exits = run.last;
        if exits {
            return Pruned {
                next: list_end(words, at),
                run,
                foldable,
            };
        }
        let made = optimize_stmt(words, next, run.end);
        next = made.next;
        run = run.extend(made.run);
        foldable += made.foldable;
    }
    Pruned {
        next,
        run,
        foldable,
    }
}
