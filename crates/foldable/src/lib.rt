// Foldable places: whether a node whose parts are simplified is one. Internal: the pass asks `folds` of nodes that it
// made, and `kept_nodes` asks `call_by` of words that it reads.
#![tactic(auto)]

ghost use Rattle.std.specs.Prelude.{◌≡◌, get_or};
ghost use Rattle.spec.specs.Proper.{is_operator};
ghost use Rattle.tables.specs.Kinds.{expr_number};
ghost use Rattle.ir.specs.Standing.{IsExpr, SomeExpr, SomeExprs};
ghost use Rattle.purity.specs.Told.{BoolOf};
ghost use Rattle.foldable.specs.Places.{PartDone, folds_here, part_by, call_by};
ghost use Rattle.foldable.specs.Places.{joins as Places·joins, binary_by, BinaryOf, is_short, AllOf};

use ir::node::{skip, word_or_zero};
use ir::tree::{Node, expr_at};
use purity::call::as_type;
use purity::expr::is_test;
use tables::details::{Builtin1, Builtin2, Class};
use tables::exprs::{ExprKind, is_builtin1, is_const, is_constant};

// What an expression is, as far as folding asks. Public, as proofs of the crate `kept` cite it.
#[derive(Clone, Copy, Debug, PartialEq, Eq)]
pub enum Part {
    Text,
    Const,
    List,
    Dot,
    TypeCall,
    Other,
}

// The same by its kind, detail, first payload word and the first word of its first part.
fn part_by(kind: ExprKind, detail: u32, word: u32, lead: u32) -> Part
    ensures { result ≡ part_by (expr_number kind) detail word lead }
{
    match kind {
        ExprKind::Const if detail == Class::String as u32 => Part::Text,
        ExprKind::Const => Part::Const,
        ExprKind::List => Part::List,
        ExprKind::Builtin1 if detail == Builtin1::Dot as u32 => Part::Dot,
        ExprKind::Call if as_type(lead, detail, word) => Part::TypeCall,
        _ => Part::Other,
    }
}

// Which of these the expression at a place is.
#[tactic(auto, using(crate::proofs::Ways::part_way))]
fn part_at(words: &[u32], at: usize) -> Part
    requires { SomeExpr words.now at }
    ensures { PartDone words.now at result }
{
    let node = expr_at(words, at);
    let lead = word_or_zero(words, node.first);
    part_by(node.kind, node.detail, node.word, lead)
}

// A string constant on the other side may fold with this part: Add takes lists, Equals type calls.
fn joins(detail: u32, part: Part) -> bool
    ensures { result ≡ Places·joins detail part }
{
    match part {
        Part::Text | Part::Const => true,
        Part::List => detail == Builtin2::Add as u32,
        Part::TypeCall => detail == Builtin2::Equals as u32,
        Part::Dot | Part::Other => false,
    }
}

// Builtin2 of two parts. Percent takes anything on the right of a string constant.
fn binary_by(detail: u32, left: Part, right: Part) -> bool
    ensures { result ≡ binary_by detail left right }
{
    match left {
        Part::Text => (detail == Builtin2::Percent as u32) | joins(detail, right),
        Part::Const => joins(detail, right) & (right != Part::TypeCall),
        Part::List => (detail == Builtin2::Add as u32) & joins(detail, right),
        Part::TypeCall => (detail == Builtin2::Equals as u32) & (right == Part::Text),
        Part::Dot | Part::Other => false,
    }
}

// Builtin2 of the two parts that stand at a place. The right one is looked for only where the left one may fold.
#[tactic(auto, using(crate::proofs::Ways::two_parts))]
fn binary_folds(words: &[u32], first: usize, detail: u32) -> bool
    requires { SomeExprs words.now first 2 }
    ensures { BinaryOf words.now first detail result }
{
    let left = part_at(words, first);
    if !joins(detail, left) {
        return false;
    }
    let middle = skip(words, first, 1);
    binary_by(detail, left, part_at(words, middle))
}

// The first word of a constant that has one payload word: of any class but Other.
fn is_short(h: u32) -> bool
    ensures { result ≡ is_short h }
{
    is_constant(h) & !is_const(h, Class::Other)
}

// The parts of a Tuple are constants, all of them. A constant has no parts, so the next part stands behind its own
// words. The short ones that come first are passed over by themselves, so that the place of the next waits for no word
// (docs/PERFORMANCE.md). How many they were follows from the place, which the second loop goes on from.
fn all_constant(words: &[u32], first: usize, count: u32) -> bool
    requires { SomeExprs words.now first count }
    ensures { AllOf words.now first count result }
{
    let mut next = first;
    for _ in 0..count {
        if !is_short(word_or_zero(words, next)) {
            break;
        }
        next += 2;
    }
    let shorts = (next - first) / 2;
    for _ in shorts..count as usize {
        let h = word_or_zero(words, next);
        if !is_constant(h) {
            return false;
        }
        next += if is_short(h) { 2 } else { 3 };
    }
    true
}

// A call of Dot or of a constant, unless a type call: `callee` is the first word of its callee.
pub fn call_by(callee: u32, detail: u32, word: u32) -> bool
    ensures { result ≡ call_by callee detail word }
{
    (is_builtin1(callee, Builtin1::Dot) | is_constant(callee)) && !as_type(callee, detail, word)
}

// Slice, Builtin1 but Not and TypeIs, Builtin2, Index2.
fn is_operator(kind: ExprKind, detail: u32) -> bool
    ensures { result ≡ is_operator (expr_number kind) detail }
{
    match kind {
        ExprKind::Slice | ExprKind::Builtin2 | ExprKind::Index2 => true,
        ExprKind::Builtin1 => !is_test(detail),
        _ => false,
    }
}

// The node at a place is a foldable place, by its kind and numbers. Constants and reads are none.
#[tactic(auto, using(crate::proofs::Ways::by_kind))]
pub fn folds(words: &[u32], at: usize, node: Node<ExprKind>) -> bool
    requires some_expr { SomeExpr words.now at }
    requires node_of { IsExpr words.now at node }
    ensures { BoolOf folds_here words.now at result }
{
    match node.kind {
        ExprKind::Tuple => all_constant(words, node.first, node.count),
        ExprKind::Builtin2 => binary_folds(words, node.first, node.detail),
        ExprKind::Call => call_by(word_or_zero(words, node.first), node.detail, node.word),
        kind => is_operator(kind, node.detail) && is_constant(word_or_zero(words, node.first)),
    }
}
