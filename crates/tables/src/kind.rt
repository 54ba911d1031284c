// The kinds of nodes: what those of expressions, of statements and of targets have in common.
ghost use Rattle.std.specs.Prelude.{Result, MatchResult, true, ◌≡◌, ℕ, ◌<◌, ◌^◌};
ghost use Rattle.spec.specs.Grammar.{kind_in, within, head_right, part_count, part_sort};
ghost use Rattle.spec.specs.declared.Sort.{Sort};
ghost use Rattle.tables.specs.Kinds.{IsNodeKind, node_number};
ghost use Rattle.tables.specs.Payload.{pay_count, pay_right};

use crate::exprs::ExprKind;
use crate::header::kind_of;
use crate::stmts::StmtKind;
use crate::targets::TargetKind;
use spec::Sort;
use std::error::Error;
use std::fmt;

// What the kinds of one sort tell.
pub trait Kind: Copy + TryFrom<u32, Error = NoKind> {
    ghost use Rattle.tables.specs.declared.kind.NoKind.{NoKind};

    // The sort of the nodes that have these kinds.
    ghost sort: { Sort };

    // A kind's number, and the numbers that these kinds have.
    ghost number: { Self → ℕ };

    ghost low: { ℕ };

    ghost high: { ℕ };

    // The kind of a header that stands where a node of the sort is.
    fn at(h: u32) -> Self
        requires { within low high (kind_in h) ≡ true }
        ensures { number result ≡ kind_in h }
    {
        Self::try_from(kind_of(h)).unwrap()
    }

    // Its number.
    fn number(self) -> u32
        ensures { (result ≡ number self) × (result < 256) };

    // Whether a node of this kind may have this detail.
    fn head_right(self, d: u32) -> bool
        ensures { result ≡ head_right sort (number self) d };

    // How many payload words a node has; w is the first of them.
    fn pay_count(self, d: u32, w: u32) -> usize
        ensures { result ≡ pay_count (number self) d w };

    // Whether a node may have this word as payload word i.
    fn pay_right(self, d: u32, i: usize, w: u32) -> bool
        ensures { result ≡ pay_right (number self) d i w };

    // How many parts a node has; w is its first payload word.
    // A struct with this bound on d as a ghost field costs 0.8 to 1.2 in 100 more instructions over real rules.
    fn part_count(self, d: u32, w: u32) -> u32
        requires { d < 2 ^ 24 }
        ensures { result ≡ part_count (number self) d w };

    // Each of these numbers is read as the kind that has it.
    ghost finds: { (n : ℕ) (r : Result Self NoKind) → Self.try_from_gives n r → within low high n ≡ true
        → MatchResult r (λ kind. number kind ≡ n) (λ _. ⊥) };
}

// A node's kind: an expression's, a statement's or a target's.
#[derive(Clone, Copy, Debug, PartialEq, Eq)]
pub enum NodeKind {
    Expr(ExprKind),
    Stmt(StmtKind),
    Target(TargetKind),
}

impl TryFrom<u32> for NodeKind {
    type Error = NoKind;

    ghost try_from_gives = { IsNodeKind };

    fn try_from(number: u32) -> Result<Self, NoKind> {
        if let Ok(kind) = ExprKind::try_from(number) {
            return Ok(NodeKind::Expr(kind));
        }
        if let Ok(kind) = StmtKind::try_from(number) {
            return Ok(NodeKind::Stmt(kind));
        }
        let kind = TargetKind::try_from(number)?;
        Ok(NodeKind::Target(kind))
    }
}

// No `Kind` for it: it has no sort of its own, and its numbers have gaps.
impl NodeKind {
    // Whether a node of this kind belongs at a place of a sort, with this detail.
    pub fn head_right(self, sort: Sort, d: u32) -> bool
        ensures { result ≡ head_right sort (node_number self) d }
    {
        match (self, sort) {
            (NodeKind::Expr(kind), Sort::Expr) => kind.head_right(d),
            (NodeKind::Stmt(kind), Sort::Stmt) => kind.head_right(d),
            (NodeKind::Target(kind), Sort::Target) => kind.head_right(d),
            (NodeKind::Target(kind), Sort::Single) => kind.single_right(d),
            _ => false,
        }
    }

    // How many payload words a node has; w is the first of them.
    pub fn pay_count(self, d: u32, w: u32) -> usize
        ensures { result ≡ pay_count (node_number self) d w }
    {
        match self {
            NodeKind::Expr(kind) => kind.pay_count(d, w),
            NodeKind::Stmt(kind) => kind.pay_count(d, w),
            NodeKind::Target(kind) => kind.pay_count(d, w),
        }
    }

    // Whether a node may have this word as payload word i.
    pub fn pay_right(self, d: u32, i: usize, w: u32) -> bool
        ensures { result ≡ pay_right (node_number self) d i w }
    {
        match self {
            NodeKind::Expr(kind) => kind.pay_right(d, i, w),
            NodeKind::Stmt(kind) => kind.pay_right(d, i, w),
            NodeKind::Target(kind) => kind.pay_right(d, i, w),
        }
    }

    // How many parts a node has; w is its first payload word.
    pub fn part_count(self, d: u32, w: u32) -> u32
        requires { d < 2 ^ 24 }
        ensures { result ≡ part_count (node_number self) d w }
    {
        match self {
            NodeKind::Expr(kind) => kind.part_count(d, w),
            NodeKind::Stmt(kind) => kind.part_count(d, w),
            NodeKind::Target(kind) => kind.part_count(d, w),
        }
    }

    // What part i of a node is.
    pub fn part_sort(self, i: u32) -> Sort
        ensures { result ≡ part_sort (node_number self) i }
    {
        match self {
            NodeKind::Target(TargetKind::Tuple) => Sort::Target,
            NodeKind::Stmt(kind) => kind.part_sort(i),
            _ => Sort::Expr,
        }
    }
}

// A number that no kind of the sort, or no class or operator, has.
#[derive(Clone, Copy, Debug, PartialEq, Eq)]
pub struct NoKind(pub u32);

impl fmt::Display for NoKind {
    fn fmt<W: fmt::Write>(&self, f: &mut fmt::Formatter<W>) -> fmt::Result {
        write!(f, "nothing has the number {}", self.0)
    }
}

impl Error for NoKind {}
