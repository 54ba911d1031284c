// A node where it stands: its kind and numbers, and where its parts begin. Internal: the crates above call these on
// words that `reader` has accepted, or that were made from such words.
ghost use Rattle.std.specs.Prelude.{true, ◌≡◌, ◌<◌, length, get_or};
ghost use Rattle.spec.specs.Grammar.{within, kind_in};
ghost use Rattle.tables.specs.Kinds.{expr_number, node_number};
ghost use Rattle.tables.specs.Payload.{pay_count as Payload·pay_count};
ghost use Rattle.ir.specs.Standing.{first_pay as Standing·first_pay, SomeExpr, SomeStmt, SomeTarget, SomeNodeOf};
ghost use Rattle.ir.specs.Standing.{SomeNode, IsKind, IsExpr, IsStmt, IsTarget};

use crate::node::word_or_zero;
use tables::exprs::ExprKind;
use tables::header::{detail_of, kind_of};
use tables::kind::{Kind, NodeKind};
use tables::stmts::StmtKind;
use tables::targets::TargetKind;

// A node's kind, detail and first payload word (0 if it has none), the place of its first part, and how many parts it
// has. K has the kinds of expressions, of statements or of targets.
// Kind and detail are two parameters below: as one struct, real rules take 0.8 to 1.2 in 100 more instructions.
#[derive(Clone, Copy, Debug, PartialEq, Eq)]
pub struct Node<K> {
    pub kind: K,
    pub detail: u32,
    pub word: u32,
    pub first: usize,
    pub count: u32,
}

impl<K: Copy> Node<K> {
    // The same numbers, with the kind said in another way.
    fn with_kind<L>(self, kind: L) -> Node<L>
        ensures { (result.kind ≡ kind) × (result.detail ≡ self.detail) × (result.word ≡ self.word)
            × (result.first ≡ self.first) × (result.count ≡ self.count) }
    {
        Node {
            kind,
            detail: self.detail,
            word: self.word,
            first: self.first,
            count: self.count,
        }
    }
}

// The node at a place, for whoever does not know its sort. Expressions first, and of these leaves: nearly half of the
// nodes of real rules are leaves.
#[tactic(auto, using(crate::proofs::Nodes::some_of))]
pub fn node_at(words: &[u32], at: usize) -> Node<NodeKind>
    requires { SomeNode words.now at }
    ensures { IsKind node_number words.now at result }
{
    let h = words[at];
    let detail = detail_of(h);
    match NodeKind::try_from(kind_of(h)).unwrap() {
        NodeKind::Expr(_) => {
            let node = expr_at(words, at);
            node.with_kind(NodeKind::Expr(node.kind))
        }
        NodeKind::Stmt(kind) => {
            let node = tabled_at(words, at, kind, detail);
            node.with_kind(NodeKind::Stmt(node.kind))
        }
        NodeKind::Target(kind) => {
            let node = tabled_at(words, at, kind, detail);
            node.with_kind(NodeKind::Target(node.kind))
        }
    }
}

// The node of the expression at a place. A literal kind leaves one row of the tables once compiled.
#[tactic(auto, using(crate::proofs::Ranges::expr_range))]
pub fn expr_at(words: &[u32], at: usize) -> Node<ExprKind>
    requires { SomeExpr words.now at }
    ensures { IsExpr words.now at result }
{
    let h = words[at];
    let kind = ExprKind::at(h);
    let detail = detail_of(h);
    match kind {
        ExprKind::Const
        | ExprKind::Local
        | ExprKind::LocalCaptured
        | ExprKind::Module
        | ExprKind::Def => leaf_at(words, at, kind, detail),
        ExprKind::Call => tabled_at(words, at, ExprKind::Call, detail),
        ExprKind::Builtin1 => tabled_at(words, at, ExprKind::Builtin1, detail),
        ExprKind::Builtin2 => bare_at(words, at, ExprKind::Builtin2, detail),
        _ => bare_at(words, at, kind, detail),
    }
}

// The node of the statement at a place. It and `target_at` are `node_of` at a type, and ask for what callers have in
// hand. One function over K would need two laws more in `Kind`: that K's sort is no list, and that a header which is
// right there has a number of K's.
#[tactic(auto, using(crate::proofs::Ranges::stmts))]
pub fn stmt_at(words: &[u32], at: usize) -> Node<StmtKind>
    requires { SomeStmt words.now at }
    ensures { IsStmt words.now at result }
{
    node_of::<StmtKind>(words, at)
}

// The node of the target at a place.
#[tactic(auto, using(crate::proofs::Ranges::targets))]
pub fn target_at(words: &[u32], at: usize) -> Node<TargetKind>
    requires { SomeTarget words.now at }
    ensures { IsTarget words.now at result }
{
    node_of::<TargetKind>(words, at)
}

// The node at a place, of a sort whose kinds K has.
#[tactic(auto, using(crate::proofs::Nodes::some_of))]
fn node_of<K: Kind>(words: &[u32], at: usize) -> Node<K>
    requires { SomeNode words.now at × (within K.low K.high (kind_in (get_or words.now at 0)) ≡ true) }
    ensures { IsKind K.number words.now at result }
{
    let h = words[at];
    tabled_at(words, at, K::at(h), detail_of(h))
}

// A constant or a read: a payload and no parts.
#[tactic(auto, using(crate::proofs::Nodes::leaf_of))]
pub fn leaf_at(words: &[u32], at: usize, kind: ExprKind, detail: u32) -> Node<ExprKind>
    requires { SomeNodeOf words.now at (expr_number kind) detail × (within 1 5 (expr_number kind) ≡ true) }
    ensures { IsExpr words.now at result }
{
    let word = word_or_zero(words, at + 1);
    let pay = kind.pay_count(detail, 0);
    let first = at + 1 + pay;
    Node {
        kind,
        detail,
        word,
        first,
        count: 0,
    }
}

// An expression without payload.
#[tactic(auto, using(crate::proofs::Nodes::bare_of))]
pub fn bare_at(words: &[u32], at: usize, kind: ExprKind, detail: u32) -> Node<ExprKind>
    requires { SomeNodeOf words.now at (expr_number kind) detail × (Payload·pay_count (expr_number kind) detail 0 ≡ 0) }
    ensures { IsExpr words.now at result }
{
    let first = at + 1;
    let count = kind.part_count(detail, 0);
    Node {
        kind,
        detail,
        word: 0,
        first,
        count,
    }
}

// The first payload word of the node at a place, 0 if it has none, as the tables of document 01 are asked with it.
#[tactic(auto, using(crate::proofs::Nodes::paid_word))]
fn first_pay<K: Kind>(words: &[u32], at: usize, kind: K, detail: u32) -> u32
    requires { at < length words.now }
    ensures { result ≡ Standing·first_pay words.now at (K.number kind) detail }
{
    let count = kind.pay_count(detail, 0);
    if count == 0 {
        return 0;
    }
    word_or_zero(words, at + 1)
}

// A node of any kind.
#[tactic(auto, using(crate::proofs::Nodes::node_of))]
pub fn tabled_at<K: Kind>(words: &[u32], at: usize, kind: K, detail: u32) -> Node<K>
    requires { SomeNodeOf words.now at (K.number kind) detail }
    ensures { IsKind K.number words.now at result }
{
    let word = first_pay(words, at, kind, detail);
    let pay = kind.pay_count(detail, word);
    let first = at + 1 + pay;
    let count = kind.part_count(detail, word);
    Node {
        kind,
        detail,
        word,
        first,
        count,
    }
}
