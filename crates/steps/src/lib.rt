// Steps of a quick walk: behind payload words, a constant, or a whole expression node by node: the place behind it, or
// None where the walk does not tell. Internal: the crate `quick` calls these, and says what None means; `kept_nodes`
// calls `const_end`.
#![tactic(auto)]

ghost use Rattle.std.specs.Prelude.{◌≡◌, ◌<◌, ◌^◌, length};
ghost use Rattle.spec.specs.Reading.{read_at};
ghost use Rattle.spec.specs.declared.Sort.TheVariants as sorts;
ghost use Rattle.steps.specs.Steps.{next_of, pay_step, head_step};
ghost use Rattle.steps.specs.Quick.{Quick};
ghost use Rattle.tables.specs.Kinds.{expr_number};

use ir::node::word_or_zero;
use tables::details::Class;
use tables::exprs::ExprKind;
use tables::header::{detail_of, kind_of};
use tables::kind::Kind;

// Behind the payload words of a node, the first of them at `at`. `read_pay` of `reader` checks the same: it names each
// refusal with its place, which this walk has no use for.
#[tactic(auto, using(crate::proofs::Cuts::told))]
pub fn pay_end(words: &[u32], at: usize, kind: ExprKind, d: u32) -> Option<usize>
    ensures { Quick (pay_step words.now at (expr_number kind) d) result }
{
    let first = word_or_zero(words, at);
    let count = kind.pay_count(d, first);
    let end = at.checked_add(count)?;
    let pay = words.get(at..end)?;
    for (i, word) in pay.iter().enumerate() {
        if !kind.pay_right(d, i, *word) {
            return None;
        }
    }
    Some(end)
}

// Behind a constant of class d.
#[tactic(auto, using(crate::proofs::Owns::const_one, crate::proofs::Owns::const_two))]
pub fn const_end(words: &[u32], at: usize, d: u32) -> Option<usize>
    requires { at < length words.now }
    ensures { Quick (head_step words.now sorts.Expr at 1 d) result }
{
    let class = Class::try_from(d).ok()?;
    let first = at + 1;
    let word = *words.get(first)?;
    if !tables::const_fits(class.number(), word) {
        return None;
    }
    let second = first + 1;
    if class != Class::Other {
        return Some(second);
    }
    let facts = *words.get(second)?;
    if !ExprKind::Const.pay_right(Class::Other as u32, 1, facts) {
        return None;
    }
    Some(second + 1)
}

// Behind the own words of a node, without guesses but for calls, constants and Builtin1.
fn flat_own(words: &[u32], at: usize, kind: ExprKind, d: u32) -> Option<usize>
    requires { at < length words.now }
    ensures { Quick (head_step words.now sorts.Expr at (expr_number kind) d) result }
{
    let first = at + 1;
    if kind == ExprKind::Call {
        return pay_end(words, first, ExprKind::Call, d);
    }
    if kind == ExprKind::Const {
        return const_end(words, at, d);
    }
    if !tables::head_by_digit(kind.number(), d) {
        return None;
    }
    if kind == ExprKind::Builtin1 {
        return pay_end(words, first, ExprKind::Builtin1, d);
    }
    if words.len() <= first {
        return None;
    }
    // A read has a payload word.
    Some(first + kind.is_read() as usize)
}

// Behind an expression, node by node, so many being left. It has fewer nodes with parts than there are levels, so that
// none is too deep.
#[tactic(auto, using(crate::proofs::Flat::ends))]
pub fn flat_end(words: &[u32], at: usize, levels: u32) -> Option<usize>
    requires { 0 < levels }
    ensures { Quick (next_of (read_at levels words.now sorts.Expr at)) result }
{
    let mut next = at;
    let mut left: usize = 1;
    let mut room = levels - 1;
    while 0 < left {
        let h = *words.get(next)?;
        let kind = ExprKind::try_from(kind_of(h)).ok()?;
        let d = detail_of(h);
        let w = word_or_zero(words, next + 1);
        let first = flat_own(words, next, kind, d)?;
        let count = kind.part_count(d, w);
        let inner = (0 < count) as u32;
        room = room.checked_sub(inner)?;
        next = first;
        left = left - 1 + count as usize;
    }
    Some(next)
}
