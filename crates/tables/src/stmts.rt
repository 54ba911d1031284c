// The kinds of statements, each with its number in document 01, 'Words', and its tables there.
ghost use Rattle.std.specs.Prelude.{◌≡◌};
ghost use Rattle.spec.specs.Grammar.{part_sort as Grammar·part_sort};
ghost use Rattle.spec.specs.declared.Sort.TheVariants as sorts;
ghost use Rattle.tables.specs.Kinds.{IsStmtKind, stmt_number};
ghost use Rattle.tables.specs.Finds.{stmt_finds};

use crate::kind::{Kind, NoKind};
use spec::Sort;

// The kinds of statements.
#[derive(Clone, Copy, Debug, PartialEq, Eq)]
pub enum StmtKind {
    PossibleGc = 32,
    Return = 33,
    Expr = 34,
    Assign = 35,
    AssignModify = 36,
    If = 37,
    For = 38,
    Break = 39,
    Continue = 40,
}

impl TryFrom<u32> for StmtKind {
    type Error = NoKind;

    ghost try_from_gives = { IsStmtKind };

    fn try_from(number: u32) -> Result<Self, NoKind> {
        match number {
            32 => Ok(StmtKind::PossibleGc),
            33 => Ok(StmtKind::Return),
            34 => Ok(StmtKind::Expr),
            35 => Ok(StmtKind::Assign),
            36 => Ok(StmtKind::AssignModify),
            37 => Ok(StmtKind::If),
            38 => Ok(StmtKind::For),
            39 => Ok(StmtKind::Break),
            40 => Ok(StmtKind::Continue),
            _ => Err(NoKind(number)),
        }
    }
}

impl Kind for StmtKind {
    ghost sort = { sorts.Stmt };

    ghost number = { stmt_number };

    ghost low = { 32 };

    ghost high = { 40 };

    ghost finds = { stmt_finds };

    fn number(self) -> u32 {
        self as u32
    }

    fn head_right(self, d: u32) -> bool {
        match self {
            // Its operators, which nothing tells apart.
            StmtKind::AssignModify => d <= 10,
            _ => d == 0,
        }
    }

    fn pay_count(self, _d: u32, _w: u32) -> usize {
        match self {
            StmtKind::Assign => 1,
            _ => 0,
        }
    }

    fn pay_right(self, _d: u32, _i: usize, _w: u32) -> bool {
        true
    }

    fn part_count(self, _d: u32, _w: u32) -> u32 {
        match self {
            StmtKind::Return | StmtKind::Expr => 1,
            StmtKind::Assign | StmtKind::AssignModify => 2,
            StmtKind::If | StmtKind::For => 3,
            _ => 0,
        }
    }
}

impl StmtKind {
    // What part i of a statement is, for any i, as the definition has it.
    pub fn part_sort(self, i: u32) -> Sort
        ensures { result ≡ Grammar·part_sort (stmt_number self) i }
    {
        match self {
            StmtKind::If if 0 < i => Sort::List,
            StmtKind::Assign | StmtKind::For if i == 0 => Sort::Target,
            StmtKind::AssignModify if i == 0 => Sort::Single,
            StmtKind::Assign | StmtKind::AssignModify | StmtKind::For if i == 2 => Sort::List,
            _ => Sort::Expr,
        }
    }
}
