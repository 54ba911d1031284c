// Verdicts over any words in which an expression stands: words that were accepted, or that the pass made; so nothing
// here counts levels.
ghost use Rattle.std.specs.Prelude.{◌≡◌, ◌||◌, true, false, leb};
ghost use Rattle.spec.specs.Grammar.{within};
ghost use Rattle.tables.specs.Kinds.{expr_number};
ghost use Rattle.spec.specs.Verdict.{definitely_bool, empty_iterable};
ghost use Rattle.spec.specs.Views.{own_pure, const_truth_by, bool_by, empty_by};
ghost use Rattle.ir.specs.Standing.{SomeExpr, SomeNodeOf, IsExpr};
ghost use Rattle.purity.specs.Told.{may_be_pure, may_be_known, joins, known_in};
ghost use Rattle.purity.specs.Told.{PureOf, fronts_by, leads_by, FrontOf, TruthOf, LeadOf, BoolOf};

use crate::call::as_type;
use ir::node::{skip, word_or_zero};
use ir::tree::{Node, bare_at, expr_at, leaf_at, tabled_at};
use tables::details::{Builtin1, Builtin2, Class, LogicalBinOp};
use tables::exprs::{ExprKind, is_builtin1};
use tables::header::{detail_of, kind_of};
use tables::kind::Kind;

// Whether a node is pure where all its parts are; `callee` is the first word of its first part.
fn own_pure(kind: ExprKind, detail: u32, word: u32, callee: u32) -> bool
    ensures { result ≡ own_pure (expr_number kind) detail word callee }
{
    match kind {
        ExprKind::Const | ExprKind::Tuple | ExprKind::List => true,
        ExprKind::If | ExprKind::LogicalBinOp | ExprKind::Seq => true,
        ExprKind::Dict => detail == 0,
        ExprKind::Builtin1 => is_test(detail),
        ExprKind::Call => as_type(callee, detail, word),
        _ => false,
    }
}

// Whether an operator of one operand is Not or TypeIs.
pub fn is_test(detail: u32) -> bool
    ensures { result ≡ within 3 4 detail }
{
    (detail == Builtin1::Not as u32) | (detail == Builtin1::TypeIs as u32)
}

// Whether a node of this kind may be pure.
fn may_be_pure(kind: ExprKind) -> bool
    ensures { result ≡ may_be_pure (expr_number kind) }
{
    match kind {
        ExprKind::Local | ExprKind::LocalCaptured | ExprKind::Module | ExprKind::Def => false,
        ExprKind::Slice | ExprKind::Builtin2 | ExprKind::Index2 => false,
        _ => true,
    }
}

// The node at a place, of a kind that may be pure. No `expr_at`: it would read the header again. A literal kind leaves
// one row of the tables once compiled, as in `extent_at` of `ir` (docs/PERFORMANCE.md). The last arm is left with If.
fn own_by(words: &[u32], at: usize, kind: ExprKind, detail: u32) -> Node<ExprKind>
    requires { SomeNodeOf words.now at (expr_number kind) detail × (may_be_pure (expr_number kind) ≡ true) }
    ensures { IsExpr words.now at result }
{
    match kind {
        ExprKind::Const => leaf_at(words, at, ExprKind::Const, detail),
        ExprKind::Builtin1 => tabled_at(words, at, ExprKind::Builtin1, detail),
        ExprKind::Call => tabled_at(words, at, ExprKind::Call, detail),
        ExprKind::LogicalBinOp => bare_at(words, at, ExprKind::LogicalBinOp, detail),
        ExprKind::Seq => bare_at(words, at, ExprKind::Seq, detail),
        ExprKind::List => bare_at(words, at, ExprKind::List, detail),
        ExprKind::Tuple => bare_at(words, at, ExprKind::Tuple, detail),
        ExprKind::Dict => bare_at(words, at, ExprKind::Dict, detail),
        _ => bare_at(words, at, ExprKind::If, detail),
    }
}

// Where an expression ends if it is pure. The right parts of Seqs are met by a loop: `if_expr` joins chains of Seq that
// are far longer than 200.
fn pure_end(words: &[u32], at: usize) -> Option<usize>
    requires { SomeExpr words.now at }
    ensures { PureOf words.now at result }
{
    let mut here = at;
    let mut h = words[here];
    // Nothing is counted up to a bound: the walk goes on while Seqs are met.
    while kind_of(h) == ExprKind::Seq as u32 {
        let seq = bare_at(words, here, ExprKind::Seq, detail_of(h));
        let left = pure_end(words, seq.first)?;
        here = left;
        h = words[here];
    }
    let kind = ExprKind::at(h);
    let detail = detail_of(h);
    if !may_be_pure(kind) {
        return None;
    }
    let node = own_by(words, here, kind, detail);
    let callee = word_or_zero(words, node.first);
    if !own_pure(kind, detail, node.word, callee) {
        return None;
    }
    let mut next = node.first;
    for _i in 0..node.count {
        next = pure_end(words, next)?;
    }
    Some(next)
}

// Whether a node with this header is pure only where its first part is, which begins at the next word: If, And, Or, Seq
// or Not. Comparisons and no match: a word is no kind yet, and reading it as one first can be a jump by a table.
fn fronts(h: u32) -> bool
    ensures { result ≡ fronts_by h }
{
    let kind = kind_of(h);
    let logic = (ExprKind::LogicalBinOp as u32 <= kind) & (kind <= ExprKind::Seq as u32);
    ((kind == ExprKind::If as u32) | logic) | is_builtin1(h, Builtin1::Not)
}

// The first part of such nodes, however they are nested, by its place. A loop, and no chain of iterators: each level of
// a chain of Seq to the left is walked from again, so a turn is to cost little. `lead_at` is this loop by another test.
#[tactic(auto, using(crate::proofs::Fronts::front_next))]
fn front_at(words: &[u32], at: usize) -> usize
    requires { SomeExpr words.now at }
    ensures { FrontOf words.now at result }
{
    let mut front = at;
    let mut h = words[front];
    // Nothing is counted up to a bound: the walk goes on while a header says so.
    while fronts(h) {
        front += 1;
        h = words[front];
    }
    front
}

// Where an expression ends that is definitely infallible and has no effects.
#[tactic(auto, using(crate::proofs::Fronts::front_range))]
pub fn is_pure_infallible(words: &[u32], at: usize) -> Option<usize>
    requires { SomeExpr words.now at }
    ensures { PureOf words.now at result }
{
    // Where the first part is not pure, nothing more is asked.
    let front = front_at(words, at);
    if !may_be_pure(ExprKind::at(words[front])) {
        return None;
    }
    pure_end(words, at)
}

// The truth of a constant of a class, by its payload words.
fn const_truth(class: u32, word: u32, second: u32) -> bool
    ensures { result ≡ const_truth_by class word second }
{
    match Class::try_from(class) {
        Ok(Class::None) => false,
        Ok(Class::Bool | Class::Int | Class::String) => word != 0,
        Ok(Class::TypeFn | Class::LenFn) => true,
        _ => second / 65536 % 2 == 1,
    }
}

// The truth of an expression that is pure and infallible, and where it ends.
#[derive(Clone, Copy, Debug, PartialEq, Eq)]
pub struct Known {
    pub truth: bool,
    pub next: usize,
}

// `Known` by cases: an Option of the struct goes back through memory, and 199 Ands take 31.2 KiB of stack, not 6.3.
#[derive(Debug, PartialEq, Eq)]
enum KnownEnd {
    True(usize),
    False(usize),
    Unknown,
}

// As `known_end`, of an expression that is no Not, And or Or. A dict that is pure is empty, so all displays are true
// where they have a part.
fn plain_end(words: &[u32], at: usize, kind: ExprKind, detail: u32) -> KnownEnd
    requires { SomeExpr words.now at
        × (SomeNodeOf words.now at (expr_number kind) detail × (joins (expr_number kind) detail ≡ false)) }
    ensures { TruthOf words.now at (known_in result) }
{
    match kind {
        ExprKind::Const => {
            // The kind is written out, as in `own_by`: a literal one leaves one row of the tables once compiled.
            let node = leaf_at(words, at, ExprKind::Const, detail);
            let second = word_or_zero(words, at + 2);
            if const_truth(detail, node.word, second) {
                KnownEnd::True(node.first)
            } else {
                KnownEnd::False(node.first)
            }
        }
        ExprKind::Tuple | ExprKind::List | ExprKind::Dict => {
            match pure_end(words, at) {
                Some(next) if detail == 0 => KnownEnd::False(next),
                Some(next) => KnownEnd::True(next),
                None => KnownEnd::Unknown,
            }
        }
        _ => KnownEnd::Unknown,
    }
}

// The truth and the end of an expression that is pure and infallible, where its truth is known.
fn known_end(words: &[u32], at: usize) -> KnownEnd
    requires { SomeExpr words.now at }
    ensures { TruthOf words.now at (known_in result) }
{
    let h = words[at];
    let kind = ExprKind::at(h);
    let detail = detail_of(h);
    match kind {
        ExprKind::LogicalBinOp => {
            let node = bare_at(words, at, ExprKind::LogicalBinOp, detail);
            let and = detail == LogicalBinOp::And as u32;
            match known_end(words, node.first) {
                KnownEnd::True(middle) if and => known_end(words, middle),
                KnownEnd::True(middle) => KnownEnd::True(skip(words, middle, 1)),
                KnownEnd::False(middle) if and => KnownEnd::False(skip(words, middle, 1)),
                KnownEnd::False(middle) => known_end(words, middle),
                KnownEnd::Unknown => KnownEnd::Unknown,
            }
        }
        _ if is_builtin1(h, Builtin1::Not) => {
            let node = bare_at(words, at, ExprKind::Builtin1, Builtin1::Not as u32);
            match known_end(words, node.first) {
                KnownEnd::True(next) => KnownEnd::False(next),
                KnownEnd::False(next) => KnownEnd::True(next),
                KnownEnd::Unknown => KnownEnd::Unknown,
            }
        }
        _ => plain_end(words, at, kind, detail),
    }
}

// Whether a header is that of Not, And or Or.
fn leads(h: u32) -> bool
    ensures { result ≡ leads_by h }
{
    (kind_of(h) == ExprKind::LogicalBinOp as u32) | is_builtin1(h, Builtin1::Not)
}

// The first operand of such nodes, however they are nested, by its place: a loop, as in `front_at`.
#[tactic(auto, using(crate::proofs::Leads::lead_next))]
fn lead_at(words: &[u32], at: usize) -> usize
    requires { SomeExpr words.now at }
    ensures { LeadOf words.now at result }
{
    let mut lead = at;
    let mut h = words[lead];
    // Nothing is counted up to a bound: the walk goes on while a header says so.
    while leads(h) {
        lead += 1;
        h = words[lead];
    }
    lead
}

// Whether an expression of this kind may have a known truth: a constant or a display.
fn may_be_known(kind: ExprKind) -> bool
    ensures { result ≡ may_be_known (expr_number kind) }
{
    matches!(
        kind,
        ExprKind::Const | ExprKind::Tuple | ExprKind::List | ExprKind::Dict
    )
}

// The truth of an expression that is pure and infallible, and where it ends, where the truth is known.
#[tactic(auto, using(crate::proofs::Leads::lead_range))]
pub fn is_pure_infallible_to_bool(words: &[u32], at: usize) -> Option<Known>
    requires { SomeExpr words.now at }
    ensures { TruthOf words.now at result }
{
    let lead = lead_at(words, at);
    if !may_be_known(ExprKind::at(words[lead])) {
        return None;
    }
    match known_end(words, at) {
        KnownEnd::True(next) => Some(Known { truth: true, next }),
        KnownEnd::False(next) => Some(Known { truth: false, next }),
        KnownEnd::Unknown => None,
    }
}

fn bool_by(kind: ExprKind, detail: u32) -> bool
    ensures { result ≡ bool_by (expr_number kind) detail }
{
    match kind {
        ExprKind::Const => detail == Class::Bool as u32,
        ExprKind::Builtin1 => is_test(detail),
        ExprKind::Builtin2 => gives_bool(detail),
        _ => false,
    }
}

// Whether an operator of two operands can only give a bool: Equals, In and the four of Compare.
fn gives_bool(detail: u32) -> bool
    ensures { result ≡ leb detail 1 || within 13 16 detail }
{
    match Builtin2::try_from(detail) {
        Ok(Builtin2::Equals | Builtin2::In | Builtin2::Less | Builtin2::Greater) => true,
        Ok(Builtin2::LessOrEqual | Builtin2::GreaterOrEqual) => true,
        _ => false,
    }
}

// This expression is definitely a bool.
#[tactic(auto, using(crate::proofs::Truths::by_header))]
pub fn is_definitely_bool(words: &[u32], at: usize) -> bool
    requires { SomeExpr words.now at }
    ensures { BoolOf definitely_bool words.now at result }
{
    let h = words[at];
    bool_by(ExprKind::at(h), detail_of(h))
}

fn empty_by(kind: ExprKind, detail: u32, second: u32) -> bool
    ensures { result ≡ empty_by (expr_number kind) detail second }
{
    match kind {
        ExprKind::Const => (detail == Class::Other as u32) & (second / 131072 % 2 == 1),
        ExprKind::Tuple | ExprKind::List | ExprKind::Dict => detail == 0,
        _ => false,
    }
}

// This expression is definitely an iterable with no element.
#[tactic(auto, using(crate::proofs::Truths::empty_way))]
pub fn is_iterable_empty(words: &[u32], at: usize) -> bool
    requires { SomeExpr words.now at }
    ensures { BoolOf empty_iterable words.now at result }
{
    let node = expr_at(words, at);
    let second = word_or_zero(words, at + 2);
    empty_by(node.kind, node.detail, second)
}
