// The kinds of expressions, each with its number in document 01, 'Words', and its tables there.
ghost use Rattle.std.specs.Prelude.{true, ◌≡◌, eqb};
ghost use Rattle.spec.specs.Grammar.{kind_in, header, within};
ghost use Rattle.spec.specs.declared.Sort.TheVariants as sorts;
ghost use Rattle.tables.specs.Kinds.{IsExprKind, expr_number, class_number, builtin1_number};
ghost use Rattle.tables.specs.Finds.{expr_finds};

use crate::details::{Builtin1, Builtin2, Class, LogicalBinOp};
use crate::header::{header_of, kind_of};
use crate::kind::{Kind, NoKind};
use crate::{bit_of, builtin_count, const_count, const_right};

// The kinds of expressions, by the Rust's names.
#[derive(Clone, Copy, Debug, PartialEq, Eq)]
pub enum ExprKind {
    Const = 1,
    Local = 2,
    LocalCaptured = 3,
    Module = 4,
    Def = 5,
    Tuple = 6,
    List = 7,
    Dict = 8,
    If = 9,
    Slice = 10,
    Builtin1 = 11,
    LogicalBinOp = 12,
    Seq = 13,
    Builtin2 = 14,
    Index2 = 15,
    Call = 16,
}

impl TryFrom<u32> for ExprKind {
    type Error = NoKind;

    ghost try_from_gives = { IsExprKind };

    fn try_from(number: u32) -> Result<Self, NoKind> {
        match number {
            1 => Ok(ExprKind::Const),
            2 => Ok(ExprKind::Local),
            3 => Ok(ExprKind::LocalCaptured),
            4 => Ok(ExprKind::Module),
            5 => Ok(ExprKind::Def),
            6 => Ok(ExprKind::Tuple),
            7 => Ok(ExprKind::List),
            8 => Ok(ExprKind::Dict),
            9 => Ok(ExprKind::If),
            10 => Ok(ExprKind::Slice),
            11 => Ok(ExprKind::Builtin1),
            12 => Ok(ExprKind::LogicalBinOp),
            13 => Ok(ExprKind::Seq),
            14 => Ok(ExprKind::Builtin2),
            15 => Ok(ExprKind::Index2),
            16 => Ok(ExprKind::Call),
            _ => Err(NoKind(number)),
        }
    }
}

impl Kind for ExprKind {
    ghost sort = { sorts.Expr };

    ghost number = { expr_number };

    ghost low = { 1 };

    ghost high = { 16 };

    ghost finds = { expr_finds };

    fn number(self) -> u32 {
        self as u32
    }

    fn head_right(self, d: u32) -> bool {
        match self {
            ExprKind::Const => d <= Class::Other as u32,
            ExprKind::Tuple | ExprKind::List | ExprKind::Dict | ExprKind::Call => true,
            // A bit for each of start, stop and step.
            ExprKind::Slice => d <= 7,
            ExprKind::Builtin1 => d <= Builtin1::Dot as u32,
            ExprKind::LogicalBinOp => d <= LogicalBinOp::Or as u32,
            ExprKind::Builtin2 => d <= Builtin2::ArrayIndex as u32,
            _ => d == 0,
        }
    }

    fn pay_count(self, d: u32, w: u32) -> usize {
        match self {
            ExprKind::Const => const_count(d),
            ExprKind::Local | ExprKind::LocalCaptured | ExprKind::Module | ExprKind::Def => 1,
            ExprKind::Builtin1 => builtin_count(d),
            ExprKind::Call => 1 + (w % 65536) as usize,
            _ => 0,
        }
    }

    fn pay_right(self, d: u32, i: usize, w: u32) -> bool {
        match self {
            ExprKind::Const => const_right(d, i, w),
            ExprKind::Call if i == 0 => (w < 262144) & (w % 65536 <= d),
            ExprKind::Builtin1 | ExprKind::Call => w < 65536,
            _ => true,
        }
    }

    // No digits, as `parts_by_digit` has them: where nodes are alike a choice is foreseen, and a shift has to wait for its
    // word (docs/PERFORMANCE.md).
    fn part_count(self, d: u32, w: u32) -> u32 {
        match self {
            ExprKind::Call => 1 + d + bit_of(65536, w) + bit_of(131072, w),
            ExprKind::Builtin1 => 1,
            ExprKind::LogicalBinOp | ExprKind::Seq | ExprKind::Builtin2 => 2,
            ExprKind::Tuple | ExprKind::List => d,
            ExprKind::Dict => 2 * d,
            ExprKind::Slice => 1 + bit_of(1, d) + bit_of(2, d) + bit_of(4, d),
            ExprKind::If | ExprKind::Index2 => 3,
            _ => 0,
        }
    }
}

impl ExprKind {
    // Whether it reads a local, a captured local, a module's slot or a def.
    pub fn is_read(self) -> bool
        ensures { result ≡ within 2 5 (expr_number self) }
    {
        matches!(
            self,
            ExprKind::Local | ExprKind::LocalCaptured | ExprKind::Module | ExprKind::Def
        )
    }
}

// Whether a header is that of a constant.
pub fn is_constant(h: u32) -> bool
    ensures { result ≡ eqb (kind_in h) 1 }
{
    kind_of(h) == ExprKind::Const as u32
}

// Whether a header is that of a constant of this class.
pub fn is_const(h: u32, class: Class) -> bool
    ensures { result ≡ eqb h (header 1 (class_number class)) }
{
    h == header_of(ExprKind::Const, class as u32)
}

// Whether a header is that of this operator of one operand.
pub fn is_builtin1(h: u32, operator: Builtin1) -> bool
    ensures { result ≡ eqb h (header 11 (builtin1_number operator)) }
{
    h == header_of(ExprKind::Builtin1, operator as u32)
}

// Whether a header is that of a read: the number of its kind, as it has no detail.
// Two comparisons and no `matches!`: a word is no kind yet, and reading it as one first took a jump by a table.
pub fn is_read(h: u32) -> bool
    ensures { result ≡ true → within 2 5 h ≡ true }
{
    (ExprKind::Local as u32 <= h) & (h <= ExprKind::Def as u32)
}
