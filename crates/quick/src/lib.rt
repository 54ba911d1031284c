// A quick walk over a whole expression or rule: the place behind it, or None where the walk does not accept it. A place
// is where reading goes on; None says nothing, and the reader has to look. So words that are accepted are read without
// a refusal or its place for each node, and every refusal is the reader's own. Payload words, constants and the walk
// node by node are in `steps`.
#![tactic(auto)]

ghost use Rattle.std.specs.Prelude.{◌≡◌, ℕ, ◌<◌, ◌&&◌, eqb, leb, length};
ghost use Rattle.spec.specs.Grammar.{kind_in, detail_in};
ghost use Rattle.tables.specs.Kinds.{expr_number};
ghost use Rattle.spec.specs.Reading.{read_at};
ghost use Rattle.spec.specs.declared.Sort.TheVariants as sorts;
ghost use Rattle.steps.specs.Steps.{next_of, head_step, exprs_step};
ghost use Rattle.steps.specs.Quick.{Quick, NameAt, HeadAt, WordAt};

use ir::node::word_or_zero;
use spec::Sort;
use steps::{const_end, flat_end, pay_end};
use tables::exprs::{ExprKind, is_constant, is_read};
use tables::header::{detail_of, kind_of};
use tables::kind::Kind;
use tables::stmts::StmtKind;
use tables::targets::TargetKind;

// Behind the own words of a node of a kind that has parts. `steps::flat_own` promises the same, for constants and reads
// too, and asks by digits: merged, reading takes 3 to 8 in 100 longer.
fn own_end(words: &[u32], at: usize, kind: ExprKind, d: u32) -> Option<usize>
    requires { at < length words.now }
    ensures { Quick (head_step words.now sorts.Expr at (expr_number kind) d) result }
{
    let first = at + 1;
    match kind {
        ExprKind::Const
        | ExprKind::Local
        | ExprKind::LocalCaptured
        | ExprKind::Module
        | ExprKind::Def => None,
        ExprKind::Call => pay_end(words, first, ExprKind::Call, d),
        _ if !kind.head_right(d) => None,
        ExprKind::Builtin1 => pay_end(words, first, ExprKind::Builtin1, d),
        _ => Some(first),
    }
}

// Behind a read, whose header is its kind.
#[tactic(auto, using(crate::proofs::Ends::name_told))]
fn read_end(words: &[u32], at: usize) -> Option<usize>
    requires { NameAt words.now at }
    ensures { (n : ℕ) → 0 < n → Quick (next_of (read_at n words.now sorts.Expr at)) result }
{
    let first = at + 1;
    if words.len() <= first {
        return None;
    }
    Some(first + 1)
}

// Behind an expression with this header: own words, then the parts.
#[cycle(exprs_end_node_end)]
#[tactic(auto, using(steps::proofs::Owns::node_exprs, steps::proofs::Nodes::exprs_none))]
fn node_end(words: &[u32], at: usize, levels: u32, kind: ExprKind, d: u32) -> Option<usize>
    requires { HeadAt words.now at levels (expr_number kind) d }
    ensures { Quick (next_of (read_at levels words.now sorts.Expr at)) result }
{
    let first = own_end(words, at, kind, d)?;
    let w = word_or_zero(words, at + 1);
    let count = kind.part_count(d, w);
    if count == 0 {
        return Some(first);
    }
    exprs_end(words, first, count, levels - 1)
}

// Behind so many expressions: constants and reads at once, the others by `node_end`.
#[cycle(exprs_end_node_end)]
#[tactic(auto, using(crate::proofs::Ends::parts_one_by_one, steps::proofs::Nodes::exprs_start))]
fn exprs_end(words: &[u32], at: usize, count: u32, levels: u32) -> Option<usize>
    ensures { Quick (exprs_step levels words.now count at) result }
{
    let mut next = at;
    for _i in 0..count {
        let h = *words.get(next)?;
        if levels == 0 {
            return None;
        }
        next = if is_read(h) {
            read_end(words, next)?
        } else {
            let d = detail_of(h);
            if is_constant(h) {
                const_end(words, next, d)?
            } else {
                node_end(words, next, levels, ExprKind::try_from(kind_of(h)).ok()?, d)?
            }
        };
    }
    Some(next)
}

// Behind an expression: a read or a constant at once, any other node by node, or, where that tells nothing, part by
// part.
#[tactic(auto, using(crate::proofs::Ends::const_told, steps::proofs::Nodes::exprs_one))]
fn expr_end(words: &[u32], at: usize, levels: u32) -> Option<usize>
    ensures { Quick (next_of (read_at levels words.now sorts.Expr at)) result }
{
    let h = *words.get(at)?;
    if levels == 0 {
        return None;
    }
    if is_read(h) {
        return read_end(words, at);
    }
    if is_constant(h) {
        return const_end(words, at, detail_of(h));
    }
    if let Some(end) = flat_end(words, at, levels) {
        return Some(end);
    }
    exprs_end(words, at, 1, levels)
}

// Behind a target other than a tuple.
fn single_end(words: &[u32], at: usize, levels: u32) -> Option<usize>
    ensures { Quick (next_of (read_at levels words.now sorts.Single at)) result }
{
    let h = *words.get(at)?;
    let below = levels.checked_sub(1)?;
    let first = at + 1;
    let word = *words.get(first)?;
    let second = first + 1;
    // A target other than a tuple has no detail, so its header is the number of its kind.
    match TargetKind::try_from(h).ok()? {
        TargetKind::Local | TargetKind::LocalCaptured => Some(second),
        TargetKind::Index => {
            let object = expr_end(words, first, below)?;
            expr_end(words, object, below)
        }
        TargetKind::Dot if word < 65536 => expr_end(words, second, below),
        TargetKind::Module if second < words.len() && words[second] < 65536 => Some(second + 1),
        _ => None,
    }
}

// Behind a target: a tuple's parts one by one, the others at once.
#[tactic(auto, using(crate::proofs::Statements::target_parts))]
fn target_end(words: &[u32], at: usize, levels: u32) -> Option<usize>
    ensures { Quick (next_of (read_at levels words.now sorts.Target at)) result }
{
    let h = *words.get(at)?;
    if kind_of(h) != TargetKind::Tuple as u32 {
        return single_end(words, at, levels);
    }
    let below = levels.checked_sub(1)?;
    let count = detail_of(h);
    let mut next = at + 1;
    for _i in 0..count {
        next = target_end(words, next, below)?;
    }
    Some(next)
}

// Behind a statement with this header, where it is neither an If nor a For.
fn plain_end(words: &[u32], at: usize, levels: u32, h: u32) -> Option<usize>
    requires { WordAt words.now at levels h }
    ensures { Quick (next_of (read_at levels words.now sorts.Stmt at)) result }
{
    let first = at + 1;
    let below = levels - 1;
    // Only an AssignModify has a detail: else the header is the number of the kind.
    if (h == StmtKind::Return as u32) | (h == StmtKind::Expr as u32) {
        return expr_end(words, first, below);
    }
    match StmtKind::try_from(h) {
        Ok(StmtKind::Assign) if first < words.len() => {
            let value = target_end(words, first + 1, below)?;
            expr_end(words, value, below)
        }
        Ok(StmtKind::PossibleGc | StmtKind::Break | StmtKind::Continue) => Some(first),
        _ if is_modify(h) => {
            let value = single_end(words, first, below)?;
            expr_end(words, value, below)
        }
        _ => None,
    }
}

// Whether a header is that of an AssignModify.
fn is_modify(h: u32) -> bool
    ensures { result ≡ eqb (kind_in h) 36 && leb (detail_in h) 10 }
{
    (kind_of(h) == StmtKind::AssignModify as u32) & StmtKind::AssignModify.head_right(detail_of(h))
}

// Behind a list: its statements one by one. Inlined, so that a level of nested Ifs is one call of `stmt_end`: with a
// call of its own, a rule of such Ifs takes 20 in 100 longer.
#[cycle(list_end_stmt_end)]
#[inline(always)]
#[tactic(auto, using(crate::proofs::Ends::parts_one_by_one, steps::proofs::Nodes::list_starts))]
fn list_end(words: &[u32], at: usize, levels: u32) -> Option<usize>
    ensures { Quick (next_of (read_at levels words.now sorts.List at)) result }
{
    let count = *words.get(at)?;
    let mut next = at + 1;
    for _i in 0..count {
        next = stmt_end(words, next, levels)?;
    }
    Some(next)
}

// Behind a statement: If and For by their parts, the others by `plain_end`.
#[cycle(list_end_stmt_end)]
pub fn stmt_end(words: &[u32], at: usize, levels: u32) -> Option<usize>
    ensures { Quick (next_of (read_at levels words.now sorts.Stmt at)) result }
{
    let h = *words.get(at)?;
    let below = levels.checked_sub(1)?;
    let first = at + 1;
    // Tests and no match: with a jump by a table the pass over nested If statements takes a fifth longer.
    if h == StmtKind::If as u32 {
        let yes = expr_end(words, first, below)?;
        let no = list_end(words, yes, below)?;
        return list_end(words, no, below);
    }
    if h == StmtKind::For as u32 {
        let over = target_end(words, first, below)?;
        let body = expr_end(words, over, below)?;
        return list_end(words, body, below);
    }
    plain_end(words, at, levels, h)
}

// Behind what stands at word 0, an expression or a rule.
pub fn words_end(words: &[u32], sort: Sort) -> Option<usize>
    ensures { Quick (next_of (read_at 200 words.now sort 0)) result }
{
    match sort {
        Sort::List => list_end(words, 0, 200),
        Sort::Expr => expr_end(words, 0, 200),
        _ => None,
    }
}
