// What the pass keeps as it is: an expression in which nothing is simplified, and a statement of such an expression.
// One walk reads it with all the reader's checks, sees that it is kept, and counts its foldable places; where it tells
// nothing, the answer is None. Internal: the crate `outer` calls `stmt_kept`.
#![tactic(auto)]

ghost use Rattle.std.specs.Prelude.{true, ◌≡◌};
ghost use Rattle.spec.specs.Grammar.{kind_in};
ghost use Rattle.kept.specs.Kept.{RoseKept};
ghost use Rattle.kept.specs.Stated.{alone_by, ValueAt, StmtKept};

use kept_nodes::own_at;
use tables::exprs::ExprKind;
use tables::header::kind_of;
use tables::stmts::StmtKind;
use tables::targets::TargetKind;

// Where what is kept ends, and how many foldable places it has.
#[derive(Clone, Copy)]
pub struct Kept {
    pub next: usize,
    pub foldable: usize,
}

// The expression at a place: node by node, so many being left. None at its 199th node with parts, so that what is kept
// is no deeper than a rule's expression may be: 199 levels.
#[tactic(auto, using(crate::proofs::Walks::walk_start, crate::proofs::Walks::walk_end))]
fn expr_kept(words: &[u32], at: usize) -> Option<Kept>
    ensures { RoseKept words.now at result }
{
    let mut next = at;
    let mut foldable = 0;
    let mut left: usize = 1;
    let mut room: usize = 198;
    while 0 < left {
        let own = own_at(words, next)?;
        let parts = own.count as usize;
        let inner = (0 < parts) as usize;
        room = room.checked_sub(inner)?;
        let folds = own.folds as usize;
        next = own.first;
        foldable += folds;
        left = left - 1 + parts;
    }
    Some(Kept { next, foldable })
}

// Where the expression of a statement begins that is kept where the expression is: a Return, an expression that stays a
// statement, by its kind, or an assignment to a slot. One bound for all its words: a `get` for each would be up to
// three tests.
fn value_at(words: &[u32], at: usize) -> Option<usize>
    ensures { ValueAt words.now at result }
{
    if words.len().checked_sub(6)? < at {
        return None;
    }
    // None of these has a detail, so the header is the number of its kind.
    match StmtKind::try_from(words[at]).ok()? {
        StmtKind::Return => Some(at + 1),
        StmtKind::Expr if is_alone(words[at + 1]) => Some(at + 1),
        StmtKind::Assign => match TargetKind::try_from(words[at + 2]).ok()? {
            TargetKind::Local | TargetKind::LocalCaptured => Some(at + 4),
            TargetKind::Module if words[at + 4] < 65536 => Some(at + 5),
            _ => None,
        },
        _ => None,
    }
}

// Whether a kept expression with this header stays a statement: all do but constants, tuples, lists and dicts. An If is
// not kept.
fn is_alone(h: u32) -> bool
    ensures { result ≡ true → alone_by (kind_in h) ≡ true }
{
    match ExprKind::try_from(kind_of(h)) {
        Ok(ExprKind::Const | ExprKind::Tuple | ExprKind::List) => false,
        Ok(ExprKind::Dict | ExprKind::If) | Err(_) => false,
        Ok(_) => true,
    }
}

// The statement at a place.
pub fn stmt_kept(words: &[u32], at: usize) -> Option<Kept>
    ensures { StmtKept words.now at result }
{
    let value = value_at(words, at)?;
    expr_kept(words, value)
}
