// The tables of document 01's 'Words': which headers and payload words there are, and what parts a node has. Internal:
// `steps`, `quick`, `reader`, `kept_nodes` and `ir` ask a kind for its rows; what is told by digits is for `steps` and
// `optimize`: the same rows once more, as they are quicker so where kinds cannot be foreseen (docs/PERFORMANCE.md).
// Who has a number and no kind asks the functions here, which answer for any number.
#![tactic(auto)]

pub mod details;
pub mod exprs;
pub mod header;
pub mod kind;
pub mod stmts;
pub mod targets;

ghost use Rattle.std.specs.Prelude.{true, false, ◌≡◌, ℕ, ◌<◌, ◌^◌, eqb};
ghost use Rattle.spec.specs.Grammar.{expr_head, head_right, bit, part_count, part_sort};
ghost use Rattle.tables.specs.Payload.{const_count, builtin_count, pay_count, const_right, pay_right};

use details::{Builtin1, Builtin2, Class};
use exprs::ExprKind;
use kind::NodeKind;
use spec::Sort;

// Whether a header's kind belongs at a place of a sort, with this detail: of a number that no kind has it is false.
#[tactic(auto, using(crate::proofs::Nones::head_none))]
pub fn head_right(sort: Sort, k: u32, d: u32) -> bool
    ensures { result ≡ head_right sort k d }
{
    match NodeKind::try_from(k) {
        Ok(kind) => kind.head_right(sort, d),
        Err(_) => false,
    }
}

fn const_count(d: u32) -> usize
    ensures { result ≡ const_count d }
{
    if d == Class::Other as u32 { 2 } else { 1 }
}

fn builtin_count(d: u32) -> usize
    ensures { result ≡ builtin_count d }
{
    match Builtin1::try_from(d) {
        Ok(Builtin1::PercentSOne | Builtin1::FormatOne) => 2,
        Ok(Builtin1::TypeIs | Builtin1::Dot) => 1,
        _ => 0,
    }
}

// How many payload words a node has; w is the first of them. Of a number that no kind has there are none.
#[tactic(auto, using(crate::proofs::Nones::pay_none))]
pub fn pay_count(k: u32, d: u32, w: u32) -> usize
    ensures { result ≡ pay_count k d w }
{
    match NodeKind::try_from(k) {
        Ok(kind) => kind.pay_count(d, w),
        Err(_) => 0,
    }
}

// Whether a constant of a class may have this word as payload word i.
fn const_right(d: u32, i: usize, w: u32) -> bool
    ensures { result ≡ const_right d i w }
{
    match Class::try_from(d) {
        Ok(Class::Bool) => w < 2,
        Ok(Class::Int) => true,
        Ok(Class::String) => w < 65536,
        Ok(Class::Other) => (i == 0) | (w < 262144),
        _ => w == 0,
    }
}

// Whether a node may have this word as payload word i: any word, of a number that no kind has.
#[tactic(auto, using(crate::proofs::Nones::right_none))]
pub fn pay_right(k: u32, d: u32, i: usize, w: u32) -> bool
    ensures { result ≡ pay_right k d i w }
{
    match NodeKind::try_from(k) {
        Ok(kind) => kind.pay_right(d, i, w),
        Err(_) => true,
    }
}

// Bit n of a word, for the power 2^n.
fn bit_of(power: u32, w: u32) -> u32
    requires { 0 < power }
    ensures { result ≡ bit power w }
{
    w / power % 2
}

// How many parts a node has; w is its first payload word. Of a number that no kind has there are none.
#[tactic(auto, using(crate::proofs::Nones::parts_none))]
pub fn part_count(k: u32, d: u32, w: u32) -> u32
    requires { d < 2 ^ 24 }
    ensures { result ≡ part_count k d w }
{
    match NodeKind::try_from(k) {
        Ok(kind) => kind.part_count(d, w),
        Err(_) => 0,
    }
}

// How many parts a node of a kind below 16 has, other than a Slice: those that its kind has, and some for each unit of
// its detail. A digit for each kind, that of kind 0 last: what kind comes next cannot be foreseen, and a shift waits
// for no guess.
#[tactic(auto, using(crate::proofs::Digits::more_fits, crate::proofs::Digits::count_digits))]
pub fn parts_by_digit(k: u32, d: u32) -> u32
    requires { (k < 16) × ((eqb k 10 ≡ false) × (d < 2 ^ 24)) }
    ensures { (w : ℕ) → result ≡ part_count k d w }
{
    let place = 4 * k;
    let base = (0x3222103000000000u64 >> place) % 16;
    let each = (0x211000000u64 >> place) % 16;
    base as u32 + each as u32 * d
}

// Whether an expression of a kind from 1 to 15 may have this detail, by how many bits that may have, a digit for each
// kind. Of displays, which may have any, only details below 256 are told of.
#[tactic(auto, using(crate::proofs::Digits::head_digits))]
pub fn head_by_digit(k: u32, d: u32) -> bool
    requires { (0 < k) × (k < 16) }
    ensures { result ≡ true → expr_head k d ≡ true }
{
    let bits = (0x501330888000000u64 >> (4 * k)) % 16;
    (d >> bits as u32 == 0)
        & ((k != ExprKind::Builtin2 as u32) | (d <= Builtin2::ArrayIndex as u32))
}

// Whether a constant of a class up to 6 may have this first payload word, by how many bits that may have, two digits
// for each class.
#[tactic(auto, using(crate::proofs::Digits::word_bits_lem, crate::proofs::Digits::fits_digits))]
pub fn const_fits(d: u32, w: u32) -> bool
    requires { d < 7 }
    ensures { result ≡ pay_right 1 d 0 w }
{
    let bits = (0x20000010200100u64 >> (8 * d)) % 256;
    w as u64 >> bits == 0
}

// What part i of a node of kind k is: an expression, of a number that no kind has.
#[tactic(auto, using(crate::proofs::Nones::sort_none))]
pub fn part_sort(k: u32, i: u32) -> Sort
    ensures { result ≡ part_sort k i }
{
    match NodeKind::try_from(k) {
        Ok(kind) => kind.part_sort(i),
        Err(_) => Sort::Expr,
    }
}
