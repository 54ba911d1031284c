// Whether an expression is safe to inline, over any words in which it stands. Internal: the entry points and `body`
// call these on words that were accepted.
ghost use Rattle.std.specs.Prelude.{◌≡◌};
ghost use Rattle.ir.specs.Standing.{SomeExpr};
ghost use Rattle.tables.specs.Kinds.{expr_number};
ghost use Rattle.def_inline.specs.Told.{own_safe, SafeOf};

use ir::tree::expr_at;
use tables::exprs::ExprKind;

// Whether a node may be there, its parts apart: not LocalCaptured, Module or Def, and a Local below the count. `word`
// is its first payload word.
fn own_safe(kind: ExprKind, word: u32, param_count: u32) -> bool
    ensures { result ≡ own_safe (expr_number kind) word param_count }
{
    match kind {
        ExprKind::Local => word < param_count,
        ExprKind::LocalCaptured | ExprKind::Module | ExprKind::Def => false,
        _ => true,
    }
}

// Whether an expression is safe to inline, and how many of its nodes were entered. No Option: both are answered for
// each expression.
#[derive(Clone, Copy, Debug, PartialEq, Eq)]
pub struct Safety {
    pub safe: bool,
    pub visits: u32,
}

// Enters nodes one by one, in word order, up to one that is forbidden. Too large an expression is not inlined.
#[tactic(auto, using(crate::proofs::Visits::entered_in_order))]
pub fn is_safe_to_inline_expr(words: &[u32], at: usize, param_count: u32) -> Safety
    requires { SomeExpr words.now at }
    ensures { SafeOf words.now at param_count result }
{
    let mut next = at;
    let mut left: usize = 1;
    for entered in 1..=101 {
        let node = expr_at(words, next);
        if !own_safe(node.kind, node.word, param_count) {
            return Safety {
                safe: false,
                visits: entered,
            };
        }
        left = left - 1 + node.count as usize;
        if left == 0 {
            return Safety {
                safe: true,
                visits: entered,
            };
        }
        next = node.first;
    }
    Safety {
        safe: false,
        visits: 101,
    }
}
