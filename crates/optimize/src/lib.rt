// `optimize` of expressions and targets over work words: parts first, then the node's constructor. Internal: the pass
// over statements calls these.
#![tactic(auto)]

ghost use Rattle.std.specs.Prelude.{false, ◌≡◌, length, get_or};
ghost use Rattle.spec.specs.Grammar.{kind_in, within};
ghost use Rattle.tables.specs.Kinds.{expr_number};
ghost use Rattle.ir.specs.Standing.{SomeNodeOf, NodeOf};
ghost use Rattle.buffer.specs.Copy.{PutAsk, PutDone};
ghost use Rattle.purity.specs.Told.{BoolOf};
ghost use Rattle.optimize.specs.Passed.{Ask, LeafAsk, NodeAsk, Done, PartsAsk, PartsDone, IfAsk, IfDone};
ghost use Rattle.optimize.specs.Passed.{stays_if, stays_by};

use buffer::put;
use expr::make::{make, pair};
use expr_bool::{Arms, Slot};
use expr_forms::Whole;
use foldable::folds;
use if_expr::{Arm, if_expr};
use ir::node::word_or_zero;
use ir::tree::{Node, bare_at, tabled_at, target_at};
use tables::details::{Builtin1, Class};
use tables::exprs::{ExprKind, is_const};
use tables::header::{detail_of, kind_of};
use tables::kind::Kind;
use tables::parts_by_digit;
use walk::weigh;

// Where the expression or target that was optimized ends, where what was made of it ends, and how many foldable places
// were met.
#[derive(Clone, Copy)]
pub struct Optimized {
    pub next: usize,
    pub end: usize,
    pub foldable: usize,
}

// The expression or target at `at`, which ends at or below top, optimized, from top on. Inlined, as most are leaves:
// with a call for each, real rules take 0.8 in 100 more instructions and lists of constants or locals 9 to 15.
#[cycle(optimize_optimize_if_optimize_node_optimize_parts)]
#[inline(always)]
pub fn optimize(words: &mut [u32], at: usize, top: usize) -> Optimized
    requires { Ask words.old at top }
    ensures { Done words.old words.new at top result }
{
    if is_leaf(words, at) {
        optimize_leaf(words, at, top)
    } else {
        optimize_node(words, at, top)
    }
}

// A constant or a read stands at a place.
#[tactic(auto, using(crate::proofs::Leaves::no_leaf))]
fn is_leaf(words: &[u32], at: usize) -> bool
    ensures { result ≡ within 1 5 (kind_in (get_or words.now at 0)) }
{
    match ExprKind::try_from(kind_of(word_or_zero(words, at))) {
        Ok(kind) => (kind == ExprKind::Const) | kind.is_read(),
        Err(_) => false,
    }
}

// A constant or a read, which has no parts: its own words.
fn optimize_leaf(words: &mut [u32], at: usize, top: usize) -> Optimized
    requires { LeafAsk words.old at top }
    ensures { Done words.old words.new at top result }
{
    let h = word_or_zero(words, at);
    // A constant of class Other has two payload words, any other leaf one. Each has a way of its own, which knows its
    // length (docs/PERFORMANCE.md).
    if is_const(h, Class::Other) {
        let next = at + 3;
        let end = put(words, at, next, top);
        return Optimized {
            next,
            end,
            foldable: 0,
        };
    }
    let next = at + 2;
    let end = put(words, at, next, top);
    Optimized {
        next,
        end,
        foldable: 0,
    }
}

// The expression at a place, which is no leaf, by its kind and detail: as `expr_at`, but inlined here, as it has one
// caller, and without a guess for most kinds.
#[tactic(auto, using(purity::proofs::Pures::node_read))]
fn own_by(words: &[u32], at: usize, kind: ExprKind, detail: u32) -> Node<ExprKind>
    requires { SomeNodeOf words.now at (expr_number kind) detail × (within 1 5 (expr_number kind) ≡ false) }
    ensures { NodeOf words.now at (expr_number kind) detail result.word result.first result.count }
{
    // Tests and no match, which jumps by a table: counted over real rules, `optimize_node` then has 1,011 such jumps
    // that are predicted wrong in the place of 539, for 2 in 100 instructions fewer.
    if kind == ExprKind::Call {
        return tabled_at(words, at, ExprKind::Call, detail);
    }
    if kind == ExprKind::Builtin1 {
        return tabled_at(words, at, ExprKind::Builtin1, detail);
    }
    if kind == ExprKind::Slice {
        return bare_at(words, at, ExprKind::Slice, detail);
    }
    let count = parts_by_digit(kind.number(), detail);
    Node {
        kind,
        detail,
        word: 0,
        first: at + 1,
        count,
    }
}

// The own words of a node from `at` up to `first`, from top on. Most are one word, which has a way of its own: once
// compiled it knows its length, as in `optimize_leaf`.
fn put_own(words: &mut [u32], at: usize, first: usize, top: usize) -> usize
    requires { PutAsk (length words.old) at first top }
    ensures { PutDone words.old words.new at first top result }
{
    let second = at + 1;
    if first == second {
        return put(words, at, second, top);
    }
    put(words, at, first, top)
}

// Any other node: its own words, its parts optimized, and what its constructor makes of them.
#[cycle(optimize_optimize_if_optimize_node_optimize_parts)]
#[tactic(auto, using(crate::proofs::Nodes::steps))]
fn optimize_node(words: &mut [u32], at: usize, top: usize) -> Optimized
    requires { NodeAsk words.old at top }
    ensures { Done words.old words.new at top result }
{
    let h = word_or_zero(words, at);
    let Ok(kind) = ExprKind::try_from(kind_of(h)) else {
        // A target stays as it is.
        let target = target_at(words, at);
        let behind = put_own(words, at, target.first, top);
        return optimize_parts(words, target.first, target.count, behind);
    };
    let detail = detail_of(h);
    let node = own_by(words, at, kind, detail);
    let first = node.first;
    if kind == ExprKind::If {
        return optimize_if(words, at, first, top);
    }
    let body = put_own(words, at, first, top);
    let parts = optimize_parts(words, first, node.count, body);
    // A list or a dict stays as it is.
    if matches!(kind, ExprKind::List | ExprKind::Dict) {
        return parts;
    }
    let made = Node {
        kind,
        detail,
        first: body,
        ..node
    };
    let whole = Whole {
        at: top,
        node: made,
        end: parts.end,
    };
    // And, Or and Seq are no foldable places.
    if matches!(kind, ExprKind::LogicalBinOp | ExprKind::Seq) {
        let end = pair(words, whole);
        return Optimized { end, ..parts };
    }
    let here = folds(words, top, made);
    let end = make(words, whole);
    Optimized {
        end,
        foldable: parts.foldable + here as usize,
        ..parts
    }
}

// So many expressions or targets from `at` on, one behind the other.
#[cycle(optimize_optimize_if_optimize_node_optimize_parts)]
fn optimize_parts(words: &mut [u32], at: usize, count: u32, top: usize) -> Optimized
    requires { PartsAsk words.old at count top }
    ensures { PartsDone words.old words.new at count top result }
{
    let mut done = Optimized {
        next: at,
        end: top,
        foldable: 0,
    };
    for _ in 0..count {
        let part = optimize(words, done.next, done.end);
        done = Optimized {
            foldable: done.foldable + part.foldable,
            ..part
        };
    }
    done
}

// A condition of which nothing is known and nothing is taken off, by its kind and detail: a read, If, Slice, Builtin1
// but Not, Builtin2, Index2, a call.
fn stays_by(kind: ExprKind, detail: u32) -> bool
    ensures { result ≡ stays_by (expr_number kind) detail }
{
    match kind {
        ExprKind::Local | ExprKind::LocalCaptured | ExprKind::Module | ExprKind::Def => true,
        ExprKind::If | ExprKind::Slice | ExprKind::Builtin2 | ExprKind::Index2 | ExprKind::Call =>
            true,
        ExprKind::Builtin1 => detail != Builtin1::Not as u32,
        _ => false,
    }
}

// Such a condition stands at a place.
#[tactic(auto, using(crate::proofs::Stays::stays_way, crate::proofs::Stays::stays_none))]
pub fn stays_at(words: &[u32], at: usize) -> bool
    ensures { BoolOf stays_if words.now at result }
{
    let h = word_or_zero(words, at);
    match ExprKind::try_from(kind_of(h)) {
        Ok(kind) => stays_by(kind, detail_of(h)),
        Err(_) => false,
    }
}

// The If at `at`, with its three parts from `first` on: its own word at top, and the optimized condition behind it. If
// that stays, the arms follow it, and all is in its place. Else it is in a slot of its weight, the arms are behind the
// slot, and what `if_expr` makes of them above is moved down to top.
#[cycle(optimize_optimize_if_optimize_node_optimize_parts)]
#[tactic(auto, using(crate::proofs::Ifs::condition_ask))]
fn optimize_if(words: &mut [u32], at: usize, first: usize, top: usize) -> Optimized
    requires { IfAsk words.old at first top }
    ensures { IfDone words.old words.new at top result }
{
    let body = put(words, at, first, top);
    let condition = optimize(words, first, body);
    if stays_at(words, body) {
        let arms = optimize_parts(words, condition.next, 2, condition.end);
        return Optimized {
            foldable: condition.foldable + arms.foldable,
            ..arms
        };
    }
    let high = body + weigh(words, body).weight;
    let yes = optimize(words, condition.next, high);
    let no = optimize(words, yes.next, yes.end);
    let arms = Arms {
        yes: Arm {
            at: high,
            end: yes.end,
        },
        no: Arm {
            at: yes.end,
            end: no.end,
        },
    };
    let last = if_expr(words, Slot { low: body, high }, arms, no.end);
    let end = put(words, no.end, last, top);
    Optimized {
        end,
        foldable: condition.foldable + (yes.foldable + no.foldable),
        ..no
    }
}
