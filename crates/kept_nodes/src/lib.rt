// Nodes that the pass keeps as they are, by their own words: read with all the reader's checks, and seen to be kept and
// to be foldable places or not. Internal: the crate `kept` calls `own_at`, which hands its words to no function but
// `const_end` once compiled, as handing them on costs as much as a node.
#![tactic(auto)]

ghost use Rattle.std.specs.Prelude.{true, ◌≡◌, ◌+◌, ◌<◌, length, get_or};
ghost use Rattle.tables.specs.Kinds.{expr_number};
ghost use Rattle.kept_nodes.specs.Nodes.{HeadAsk, OwnKept, AllTexts};

use foldable::call_by;
use purity::call::as_type;
use steps::const_end;
use tables::details::{Builtin1, Builtin2, Class};
use tables::exprs::{ExprKind, is_const, is_constant, is_read};
use tables::header::{detail_of, kind_of};
use tables::kind::Kind;

// The own words of a node: where its parts begin, how many they are, and whether the node is a foldable place.
#[derive(Clone, Copy)]
pub struct Own {
    pub first: usize,
    pub count: u32,
    pub folds: bool,
}

// A constant of a class.
#[tactic(auto, using(crate::proofs::Owns::const_told))]
fn const_own(words: &[u32], at: usize, class: u32) -> Option<Own>
    requires { HeadAsk words.now at 1 class (get_or words.now (at + 1) 0) }
    ensures { OwnKept words.now at result }
{
    let first = const_end(words, at, class)?;
    Some(Own {
        first,
        count: 0,
        folds: false,
    })
}

// So many words from a place on are texts.
fn all_texts(words: &[u32], at: usize, count: usize) -> bool
    requires { at + count < length words.now }
    ensures { result ≡ true → AllTexts words.now at count }
{
    words[at..at + count].iter().all(|text| *text < 65536)
}

// A call, with its names word. A type call is not kept. Not by `pay_end` of `steps`: the names are counted and the
// callee is read here anyway.
#[tactic(auto, using(crate::proofs::Owns::call_told))]
fn call_own(words: &[u32], at: usize, arguments: u32, word: u32) -> Option<Own>
    requires { HeadAsk words.now at 16 arguments word }
    ensures { OwnKept words.now at result }
{
    if !ExprKind::Call.pay_right(arguments, 0, word) {
        return None;
    }
    let names = (word % 65536) as usize;
    let texts = at + 2;
    let first = texts + names;
    let callee = *words.get(first)?;
    if !all_texts(words, texts, names) {
        return None;
    }
    if as_type(callee, arguments, word) {
        return None;
    }
    let count = ExprKind::Call.part_count(arguments, word);
    let folds = call_by(callee, arguments, word);
    Some(Own {
        first,
        count,
        folds,
    })
}

// Builtin1, with the word behind its header: Dot, and the three operators without payload that are kept.
#[tactic(auto, using(crate::proofs::Owns::dot_told, crate::proofs::Owns::builtin_told))]
fn builtin_own(words: &[u32], at: usize, detail: u32, word: u32) -> Option<Own>
    requires { HeadAsk words.now at 11 detail word }
    ensures { OwnKept words.now at result }
{
    match Builtin1::try_from(detail).ok()? {
        Builtin1::Dot => {
            let first = at + 2;
            if 65536 <= word {
                return None;
            }
            let object = *words.get(first)?;
            Some(Own {
                first,
                count: 1,
                folds: is_constant(object),
            })
        }
        Builtin1::Minus | Builtin1::Plus | Builtin1::BitNot => Some(Own {
            first: at + 1,
            count: 1,
            folds: is_constant(word),
        }),
        _ => None,
    }
}

// A node without payload, with its first part's first word, if it has parts.
#[tactic(auto, using(crate::proofs::Owns::bare_told))]
fn bare_own(words: &[u32], at: usize, kind: ExprKind, detail: u32, lead: u32) -> Option<Own>
    requires { HeadAsk words.now at (expr_number kind) detail lead }
    ensures { OwnKept words.now at result }
{
    let first = at + 1;
    match kind {
        ExprKind::Builtin2 if detail <= Builtin2::ArrayIndex as u32 => {
            // A constant or, for Add, a list to the left may fold with what is to the right, unless it does so anyway:
            // Percent with a string constant.
            let text = (detail == Builtin2::Percent as u32) & is_const(lead, Class::String);
            let list = (kind_of(lead) == ExprKind::List as u32) & (detail == Builtin2::Add as u32);
            if (is_constant(lead) & !text) | list {
                return None;
            }
            Some(Own {
                first,
                count: 2,
                folds: text,
            })
        }
        ExprKind::List => Some(Own {
            first,
            count: detail,
            folds: false,
        }),
        ExprKind::Dict => Some(Own {
            first,
            count: ExprKind::Dict.part_count(detail, 0),
            folds: false,
        }),
        ExprKind::Tuple => {
            // A tuple that begins with a constant may have constants alone.
            let none = detail == 0;
            if !none & is_constant(lead) {
                return None;
            }
            Some(Own {
                first,
                count: detail,
                folds: none,
            })
        }
        ExprKind::Index2 if detail == 0 => Some(Own {
            first,
            count: 3,
            folds: is_constant(lead),
        }),
        ExprKind::Slice if detail <= 7 => Some(Own {
            first,
            count: ExprKind::Slice.part_count(detail, 0),
            folds: is_constant(lead),
        }),
        _ => None,
    }
}

// The node at a place, None where nothing is told of it.
#[tactic(auto, using(crate::proofs::Owns::read_one))]
pub fn own_at(words: &[u32], at: usize) -> Option<Own>
    ensures { OwnKept words.now at result }
{
    // One bound for both words: with a `get` for each the pass over real rules takes 3 in 100 longer.
    if words.len().checked_sub(2)? < at {
        return None;
    }
    let h = words[at];
    let second = at + 1;
    let word = words[second];
    if is_read(h) {
        return Some(Own {
            first: second + 1,
            count: 0,
            folds: false,
        });
    }
    let detail = detail_of(h);
    // Tests and no match: a jump by a table makes the pass over real rules 5 to 7 in 100 longer.
    let kind = ExprKind::try_from(kind_of(h)).ok()?;
    if kind == ExprKind::Call {
        return call_own(words, at, detail, word);
    }
    if kind == ExprKind::Const {
        return const_own(words, at, detail);
    }
    if kind == ExprKind::Builtin1 {
        return builtin_own(words, at, detail, word);
    }
    bare_own(words, at, kind, detail, word)
}
