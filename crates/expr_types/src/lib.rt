// The constructors that tell types, of TypeIs and of calls, over work words, with the Rust's names. Internal: `make` of
// the crate `expr` calls these. Each is handed an expression as it is made, and answers the place behind what it made.
#![tactic(auto)]

ghost use Rattle.std.specs.Prelude.{◌≡◌};
ghost use Rattle.tables.specs.Kinds.{expr_number};
ghost use Rattle.expr_forms.specs.Made.{Made, Handed, MadeOf};
ghost use Rattle.expr_types.specs.Types.{type_iss, type_is_made, const_type_by, type_text_by};
ghost use Rattle.expr_types.specs.Types.{type_calls, type_made, TypeCall, calls, call_made};

use expr_forms::Whole;
use ir::node::{skip, word_or_zero};
use ir::write::{write_bool, write_const};
use purity::call::as_type;
use purity::expr::{is_pure_infallible, is_test};
use tables::details::Class;
use tables::exprs::{ExprKind, is_constant};
use tables::header::detail_of;
use tables::kind::Kind;

// The types whose names are texts with numbers of their own in document 01, 'Words'.
#[derive(Clone, Copy, Debug, PartialEq, Eq)]
enum TypeText {
    NoneType = 1,
    Bool = 2,
    Int = 3,
    String = 4,
    Function = 5,
    Tuple = 6,
    List = 7,
    Dict = 8,
}

// The type text of a constant of a class, by its second payload word.
pub(crate) fn const_type(class: u32, second: u32) -> u32
    ensures { result ≡ const_type_by class second }
{
    match Class::try_from(class) {
        Ok(Class::None) => TypeText::NoneType as u32,
        Ok(Class::Bool) => TypeText::Bool as u32,
        Ok(Class::Int) => TypeText::Int as u32,
        Ok(Class::String) => TypeText::String as u32,
        Ok(Class::TypeFn | Class::LenFn) => TypeText::Function as u32,
        _ => second % 65536,
    }
}

// TypeIs: a constant is folded.
#[tactic(auto, using(crate::proofs::TypeTests::type_is_room))]
pub fn type_is(words: &mut [u32], whole: Whole) -> usize
    requires { Handed type_iss words.old whole }
    ensures { MadeOf type_iss type_is_made words.old words.new whole result }
{
    let text = whole.node.word;
    let first = whole.node.first;
    let h = word_or_zero(words, first);
    if is_constant(h) {
        let second = word_or_zero(words, first + 2);
        let b = const_type(detail_of(h), second) == text;
        return write_bool(words, whole.at, b);
    }
    whole.end
}

// The text of the type that an expression's own words tell where it is pure.
fn type_text(kind: ExprKind, detail: u32, second: u32) -> Option<u32>
    ensures { result ≡ type_text_by (expr_number kind) detail second }
{
    match kind {
        ExprKind::Const => Some(const_type(detail, second)),
        ExprKind::Tuple => Some(TypeText::Tuple as u32),
        ExprKind::List => Some(TypeText::List as u32),
        ExprKind::Dict => Some(TypeText::Dict as u32),
        ExprKind::Builtin1 if is_test(detail) => Some(TypeText::Bool as u32),
        _ => None,
    }
}

// A type call at `at` with its argument at `part`: the name of the argument's type in the call's place, where it is
// known. Purity is asked last: of a type call in a type call it is not asked.
#[tactic(auto, using(crate::proofs::TypeCalls::argument_expr, ir::proofs::Ranges::expr_range))]
fn typ(words: &mut [u32], at: usize, part: usize, end: usize) -> usize
    requires { TypeCall words.old at part end }
    ensures { Made type_calls type_made words.old words.new at end result }
{
    let h = word_or_zero(words, part);
    let kind = ExprKind::at(h);
    let detail = detail_of(h);
    let second = word_or_zero(words, part + 2);
    if let Some(text) = type_text(kind, detail, second) {
        let pure = is_pure_infallible(words, part).is_some();
        if pure {
            return write_const(words, at, Class::String, text);
        }
    }
    end
}

// A type call of which the type is known gives the type's name.
#[tactic(auto, using(crate::proofs::TypeCalls::asks))]
pub fn call(words: &mut [u32], whole: Whole) -> usize
    requires { Handed calls words.old whole }
    ensures { MadeOf calls call_made words.old words.new whole result }
{
    let first = whole.node.first;
    let callee = word_or_zero(words, first);
    if as_type(callee, whole.node.detail, whole.node.word) {
        let part = skip(words, first, 1);
        return typ(words, whole.at, part, whole.end);
    }
    whole.end
}
