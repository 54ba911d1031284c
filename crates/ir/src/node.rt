// Expressions where they stand: how many words are a node's own, and where a run of expressions ends. Internal: the
// crates above call these on words that `reader` has accepted, or that were made from such words.
ghost use Rattle.std.specs.Prelude.{◌≡◌, get_or};
ghost use Rattle.ir.specs.Standing.{SomeExpr, IsExtent, SomeExprs, SkipOf};

use tables::exprs::ExprKind;
use tables::header::{detail_of, kind_of};
use tables::kind::Kind;

// The word at a place, 0 where there is none, and no Option: the definitions read a word that is not there as 0 too.
pub fn word_or_zero(words: &[u32], at: usize) -> u32
    ensures { result ≡ get_or words.now at 0 }
{
    words.get(at).copied().unwrap_or(0)
}

// What the walks over expressions need of a node: how many words are its own, and how many parts it has.
#[derive(Clone, Copy)]
pub struct Extent {
    pub own: usize,
    pub count: u32,
}

// The extent of the expression at a place. Tests on the number of its kind, the frequent ones first, and the last row is
// that of If and Index2. No `match` and no digits: where nodes are alike a test is foreseen, and a jump by a table, or a
// shift, has to wait for its word (docs/PERFORMANCE.md).
#[tactic(auto, using(crate::proofs::Extents::extents))]
pub fn extent_at(words: &[u32], at: usize) -> Extent
    requires { SomeExpr words.now at }
    ensures { IsExtent words.now at result }
{
    let h = words[at];
    let kind = kind_of(h);
    let detail = detail_of(h);
    if (ExprKind::Local as u32 <= kind) & (kind <= ExprKind::Def as u32) {
        return Extent { own: 2, count: 0 };
    }
    if kind == ExprKind::Const as u32 {
        let own = 1 + ExprKind::Const.pay_count(detail, 0);
        return Extent { own, count: 0 };
    }
    if kind == ExprKind::Call as u32 {
        let word = word_or_zero(words, at + 1);
        let own = 1 + ExprKind::Call.pay_count(detail, word);
        let count = ExprKind::Call.part_count(detail, word);
        return Extent { own, count };
    }
    if kind == ExprKind::Builtin1 as u32 {
        let own = 1 + ExprKind::Builtin1.pay_count(detail, 0);
        return Extent { own, count: 1 };
    }
    if (ExprKind::Tuple as u32 <= kind) & (kind <= ExprKind::List as u32) {
        return Extent {
            own: 1,
            count: detail,
        };
    }
    if (ExprKind::LogicalBinOp as u32 <= kind) & (kind <= ExprKind::Builtin2 as u32) {
        return Extent { own: 1, count: 2 };
    }
    if kind == ExprKind::Dict as u32 {
        let count = ExprKind::Dict.part_count(detail, 0);
        return Extent { own: 1, count };
    }
    if kind == ExprKind::Slice as u32 {
        let count = ExprKind::Slice.part_count(detail, 0);
        return Extent { own: 1, count };
    }
    Extent { own: 1, count: 3 }
}

// Where a run of so many expressions ends. `while`: nothing is counted up to a bound, it goes on while expressions are
// left.
#[tactic(auto, using(crate::proofs::Forests::walks))]
pub fn skip(words: &[u32], at: usize, count: u32) -> usize
    requires { SomeExprs words.now at count }
    ensures { SkipOf words.now at count result }
{
    let mut next = at;
    let mut left = count as usize;
    while 0 < left {
        let node = extent_at(words, next);
        let own = node.own;
        let parts = node.count as usize;
        next += own;
        left = left - 1 + parts;
    }
    next
}
