// What a function body gives to inlining, over any words in which it stands as a rule. Internal: the entry points call
// these on words that were accepted.
ghost use Rattle.std.specs.Prelude.{◌≡◌};
ghost use Rattle.ir.specs.Standing.{SomeExpr};
ghost use Rattle.walk.specs.Walked.{SomeList};
ghost use Rattle.def_inline.specs.Told.{FirstOf, TestAt, TestOf, PlainOf, BodyOf};

use crate::expr::is_safe_to_inline_expr;
use ir::node::word_or_zero;
use ir::tree::stmt_at;
use tables::details::Builtin1;
use tables::exprs::{ExprKind, is_builtin1};
use tables::stmts::StmtKind;
use walk::list_at;

// What a body begins with: nothing, a Return with the word where its expression begins, or something else. An enum, and
// no Option or Result: it says which of three things stands there, one of them with its data.
#[derive(Clone, Copy)]
enum First {
    Nothing,
    Return(usize),
    Other,
}

#[tactic(auto, using(crate::proofs::Bodies::of_first))]
fn first_of(words: &[u32]) -> First
    requires { SomeList words.now 0 }
    ensures { FirstOf words.now result }
{
    let list = list_at(words, 0);
    let count = list.count;
    let first = list.first;
    if count == 0 {
        return First::Nothing;
    }
    let node = stmt_at(words, first);
    match node.kind {
        StmtKind::Return => First::Return(node.first),
        _ => First::Other,
    }
}

// The text, if an expression is TypeIs of Local 0: header, text, and the local's two words. A Local's header is the
// number of its kind, as it has no detail.
#[tactic(auto, using(crate::proofs::Bodies::test_of))]
fn type_test(words: &[u32], at: usize) -> Option<u32>
    requires { SomeExpr words.now at }
    ensures { TestAt words.now at result }
{
    let head = word_or_zero(words, at);
    let text = word_or_zero(words, at + 1);
    let part = word_or_zero(words, at + 2);
    let slot = word_or_zero(words, at + 3);
    // Slot 0 is a slot for the first function parameter.
    let first = (part == ExprKind::Local as u32) & (slot == 0);
    let found = is_builtin1(head, Builtin1::TypeIs) & first;
    found.then_some(text)
}

// The text, if a body begins with the return of a type test of Local 0.
#[tactic(auto, using(crate::proofs::Bodies::of_tests))]
fn is_return_type_is(words: &[u32]) -> Option<u32>
    requires { SomeList words.now 0 }
    ensures { TestOf words.now result }
{
    match first_of(words) {
        First::Nothing | First::Other => None,
        First::Return(at) => type_test(words, at),
    }
}

// Function body suitable for inlining: a type test with its text number, a safe expression with the word where it
// begins, None, or neither of them. `Neither` and no Option: document 01 has it as one of four answers, each with a
// number of its own in the C interface.
#[derive(Clone, Copy, Debug, PartialEq, Eq)]
pub enum InlineDefBody {
    Neither,
    TypeTest(u32),
    Safe(usize),
    NoneValue,
}

// A body that begins with the return of a safe expression, or is empty, which is equivalent to `return None`.
#[tactic(auto, using(crate::proofs::Bodies::of_plain))]
fn is_return_safe_to_inline_expr(words: &[u32], param_count: u32) -> InlineDefBody
    requires { SomeList words.now 0 }
    ensures { PlainOf words.now param_count result }
{
    match first_of(words) {
        First::Nothing => InlineDefBody::NoneValue,
        First::Other => InlineDefBody::Neither,
        First::Return(at) => {
            let safety = is_safe_to_inline_expr(words, at, param_count);
            if safety.safe {
                InlineDefBody::Safe(at)
            } else {
                InlineDefBody::Neither
            }
        }
    }
}

// What the body of a function gives that has so many parameters, the first of which takes a position or not, star
// parameters or none, and so many parameter variables. No struct of these four: each is read once, and every caller has
// them singly.
#[tactic(auto, using(crate::proofs::Bodies::of_bodies))]
pub fn inline_def_body(
    words: &[u32],
    params: u32,
    first_positional: bool,
    star: bool,
    param_variables: u32,
) -> InlineDefBody
    requires { SomeList words.now 0 }
    ensures { BodyOf words.now params first_positional star param_variables result }
{
    if (params == 1) & first_positional {
        if let Some(text) = is_return_type_is(words) {
            return InlineDefBody::TypeTest(text);
        }
    }
    if star {
        return InlineDefBody::Neither;
    }
    is_return_safe_to_inline_expr(words, param_variables)
}
