// The details of constants and operators, each with its number in document 01, 'Words': classes by its names there,
// operators by the Rust's.
ghost use Rattle.std.specs.Prelude.{◌≡◌};
ghost use Rattle.tables.specs.Kinds.{class_number, IsClass, IsBuiltin1, IsLogicalBinOp, IsBuiltin2};

use crate::kind::NoKind;

// The classes of constants.
#[derive(Clone, Copy, Debug, PartialEq, Eq)]
pub enum Class {
    None = 0,
    Bool = 1,
    Int = 2,
    String = 3,
    TypeFn = 4,
    LenFn = 5,
    Other = 6,
}

impl TryFrom<u32> for Class {
    type Error = NoKind;

    ghost try_from_gives = { IsClass };

    fn try_from(number: u32) -> Result<Self, NoKind> {
        match number {
            0 => Ok(Class::None),
            1 => Ok(Class::Bool),
            2 => Ok(Class::Int),
            3 => Ok(Class::String),
            4 => Ok(Class::TypeFn),
            5 => Ok(Class::LenFn),
            6 => Ok(Class::Other),
            _ => Err(NoKind(number)),
        }
    }
}

impl Class {
    // Its number.
    pub fn number(self) -> u32
        ensures { result ≡ class_number self }
    {
        self as u32
    }
}

// The operators of one operand.
#[derive(Clone, Copy, Debug, PartialEq, Eq)]
pub enum Builtin1 {
    Minus = 0,
    Plus = 1,
    BitNot = 2,
    Not = 3,
    TypeIs = 4,
    PercentSOne = 5,
    FormatOne = 6,
    Dot = 7,
}

impl TryFrom<u32> for Builtin1 {
    type Error = NoKind;

    ghost try_from_gives = { IsBuiltin1 };

    fn try_from(number: u32) -> Result<Self, NoKind> {
        match number {
            0 => Ok(Builtin1::Minus),
            1 => Ok(Builtin1::Plus),
            2 => Ok(Builtin1::BitNot),
            3 => Ok(Builtin1::Not),
            4 => Ok(Builtin1::TypeIs),
            5 => Ok(Builtin1::PercentSOne),
            6 => Ok(Builtin1::FormatOne),
            7 => Ok(Builtin1::Dot),
            _ => Err(NoKind(number)),
        }
    }
}

// And and Or. As each enum of this file it can be read from its number, though nothing reads it so: the crates above
// compare a detail with `LogicalBinOp::Or as u32`.
#[derive(Clone, Copy, Debug, PartialEq, Eq)]
pub enum LogicalBinOp {
    And = 0,
    Or = 1,
}

impl TryFrom<u32> for LogicalBinOp {
    type Error = NoKind;

    ghost try_from_gives = { IsLogicalBinOp };

    fn try_from(number: u32) -> Result<Self, NoKind> {
        match number {
            0 => Ok(LogicalBinOp::And),
            1 => Ok(LogicalBinOp::Or),
            _ => Err(NoKind(number)),
        }
    }
}

// The operators of two operands, Compare as four.
#[derive(Clone, Copy, Debug, PartialEq, Eq)]
pub enum Builtin2 {
    Equals = 0,
    In = 1,
    Sub = 2,
    Add = 3,
    Multiply = 4,
    Percent = 5,
    Divide = 6,
    FloorDivide = 7,
    BitAnd = 8,
    BitOr = 9,
    BitXor = 10,
    LeftShift = 11,
    RightShift = 12,
    Less = 13,
    Greater = 14,
    LessOrEqual = 15,
    GreaterOrEqual = 16,
    ArrayIndex = 17,
}

impl TryFrom<u32> for Builtin2 {
    type Error = NoKind;

    ghost try_from_gives = { IsBuiltin2 };

    fn try_from(number: u32) -> Result<Self, NoKind> {
        match number {
            0 => Ok(Builtin2::Equals),
            1 => Ok(Builtin2::In),
            2 => Ok(Builtin2::Sub),
            3 => Ok(Builtin2::Add),
            4 => Ok(Builtin2::Multiply),
            5 => Ok(Builtin2::Percent),
            6 => Ok(Builtin2::Divide),
            7 => Ok(Builtin2::FloorDivide),
            8 => Ok(Builtin2::BitAnd),
            9 => Ok(Builtin2::BitOr),
            10 => Ok(Builtin2::BitXor),
            11 => Ok(Builtin2::LeftShift),
            12 => Ok(Builtin2::RightShift),
            13 => Ok(Builtin2::Less),
            14 => Ok(Builtin2::Greater),
            15 => Ok(Builtin2::LessOrEqual),
            16 => Ok(Builtin2::GreaterOrEqual),
            17 => Ok(Builtin2::ArrayIndex),
            _ => Err(NoKind(number)),
        }
    }
}
