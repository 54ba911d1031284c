// `not`, and `pair` and `make`, which go by a node's kind. Internal: the pass calls these two on nodes that it made.
// Each is handed an expression as it is made, and answers the place behind what it made.
ghost use Rattle.std.specs.Prelude.{true, false, ◌≡◌};
ghost use Rattle.spec.specs.Grammar.{within};
ghost use Rattle.tables.specs.Kinds.{expr_number};
ghost use Rattle.expr_forms.specs.Made.{wholes, remade, Handed, MadeOf};
ghost use Rattle.expr.specs.Nots.{nots, not_made};

use buffer::put;
use expr_forms::Whole;
use expr_pairs::{logical_bin_op, seq};
use expr_types::{call, type_is};
use ir::node::word_or_zero;
use ir::write::write_bool;
use purity::expr::{is_definitely_bool, is_pure_infallible_to_bool};
use tables::details::Builtin1;
use tables::exprs::{ExprKind, is_builtin1, is_constant};

// Not: a constant is folded, and Not of Not goes where what it holds is definitely a bool.
#[tactic(auto, using(crate::proofs::Nots::asks))]
pub fn not(words: &mut [u32], whole: Whole) -> usize
    requires { Handed nots words.old whole }
    ensures { MadeOf nots not_made words.old words.new whole result }
{
    let first = whole.node.first;
    let h = word_or_zero(words, first);
    if is_constant(h) {
        return match is_pure_infallible_to_bool(words, first) {
            Some(known) => write_bool(words, whole.at, !known.truth),
            // No constant has an unknown truth.
            None => whole.at,
        };
    }
    // Not has no payload.
    if is_builtin1(h, Builtin1::Not) {
        let inner = first + 1;
        if is_definitely_bool(words, inner) {
            return put(words, inner, whole.end, whole.at);
        }
        return whole.end;
    }
    whole.end
}

// The constructor of a node that is And, Or or Seq.
pub fn pair(words: &mut [u32], whole: Whole) -> usize
    requires { Handed wholes words.old whole × (within 12 13 (expr_number whole.node.kind) ≡ true) }
    ensures { MadeOf wholes remade words.old words.new whole result }
{
    match whole.node.kind {
        ExprKind::LogicalBinOp => logical_bin_op(words, whole),
        _ => seq(words, whole),
    }
}

// The constructor of any other node, by its kind, calls first. The two are apart so that each has one caller, and is
// inlined there.
pub fn make(words: &mut [u32], whole: Whole) -> usize
    requires { Handed wholes words.old whole × (within 12 13 (expr_number whole.node.kind) ≡ false) }
    ensures { MadeOf wholes remade words.old words.new whole result }
{
    let detail = whole.node.detail;
    match whole.node.kind {
        ExprKind::Call => call(words, whole),
        ExprKind::Builtin1 if detail == Builtin1::Not as u32 => not(words, whole),
        ExprKind::Builtin1 if detail == Builtin1::TypeIs as u32 => type_is(words, whole),
        _ => whole.end,
    }
}
