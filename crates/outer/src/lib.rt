// The outer list of a rule, read and pruned together, a statement at a time: what is kept as it is in one walk, any
// other statement by the quick walk and then the pass. Internal: the crate `prune` calls `optimize_outer` on words that
// it copied, and reads the rule first and prunes it then where this tells nothing.
#![tactic(auto)]

ghost use Rattle.outer.specs.Outer.{ReadTop, RestDone, KeepAsk, KeepDone, TopAsk, TopDone};
ghost use Rattle.outer.specs.Outer.{OuterAsk, OuterDone};

use buffer::put;
use ir::node::word_or_zero;
use ir::write::write_word;
use kept::stmt_kept;
use pass::{Pruned, optimize_stmt};
use quick::stmt_end;
use runs::Run;
use tables::stmts::StmtKind;

// Where the statement at `at` ends, None where this is not told. Behind the rule the words have what was made of it, so
// the callers test that the end lies within the rule.
#[tactic(auto, using(crate::proofs::Tops::read_told))]
fn read_top(words: &[u32], at: usize) -> Option<usize>
    ensures { ReadTop words.now at result }
{
    stmt_end(words, at, 200)
}

// Where so many statements from `at` on end, of a rule of n words, None where this is not told. It goes on no further
// than the rule: the words behind it may be any, and many.
#[tactic(auto, using(crate::proofs::Turns::read_start, crate::proofs::Turns::read_again))]
fn read_rest(words: &[u32], n: usize, at: usize, left: u32) -> Option<usize>
    ensures { RestDone words.now n at left result }
{
    let mut next = at;
    for _i in 0..left {
        next = read_top(words, next)?;
        if next > n {
            return None;
        }
    }
    Some(next)
}

// The statement from `at` up to `end`, which is kept, from top on.
#[tactic(auto, using(crate::proofs::Tops::keep_done))]
fn keep(words: &mut [u32], at: usize, end: usize, top: usize) -> Run
    requires { KeepAsk words.old at end top }
    ensures { KeepDone words.old words.new at end top result }
{
    let h = word_or_zero(words, at);
    let last = put(words, at, end, top);
    Run {
        at: top,
        end: last,
        count: 1,
        last: h == StmtKind::Return as u32,
    }
}

// The statement at `at`, of a rule of n words, behind the run that was made of those before it, none of which exits:
// the run has what was made of all of them. None where it is not told where it ends. The words and n are two: what is
// made stands behind the rule, in the same words.
fn optimize_top(words: &mut [u32], n: usize, at: usize, run: Run) -> Option<Pruned>
    requires { TopAsk words.old n at run }
    ensures { TopDone words.old words.new n at run result }
{
    let behind = run.end;
    if let Some(kept) = stmt_kept(words, at) {
        let end = kept.next;
        if end <= n {
            let more = keep(words, at, end, behind);
            let joined = run.extend(more);
            return Some(Pruned {
                next: end,
                run: joined,
                foldable: kept.foldable,
            });
        }
    }
    let next = read_top(words, at)?;
    if next > n {
        return None;
    }
    let made = optimize_stmt(words, at, behind);
    let joined = run.extend(made.run);
    Some(Pruned {
        next,
        run: joined,
        foldable: made.foldable,
    })
}

// Where the pruned rule ends, and how many foldable places were met.
#[derive(Clone, Copy)]
pub struct Outer {
    pub end: usize,
    pub foldable: usize,
}

// The rule of n words at the start of the words, read and pruned, behind it. The pass leaves the list behind a Break, a
// Continue or a Return; what is left is read and no more. None where this tells nothing.
#[tactic(auto, using(crate::proofs::Turns::turn_again))]
pub fn optimize_outer(words: &mut [u32], n: usize) -> Option<Outer>
    requires { OuterAsk words.old n }
    ensures { OuterDone words.old words.new n result }
{
    let count = word_or_zero(words, 0);
    let top = n + 1;
    let mut next: usize = 1;
    let mut run = Run::empty(top);
    let mut foldable = 0;
    let mut left = 0;
    // Labelled, as document 01 asks.
    'statements: for i in 0..count {
        let made = optimize_top(words, n, next, run)?;
        next = made.next;
        run = made.run;
        foldable += made.foldable;
        if run.last {
            left = count - 1 - i;
            break 'statements;
        }
    }
    let last = read_rest(words, n, next, left)?;
    if last != n {
        return None;
    }
    let made = run.count;
    write_word(words, n, made as u32);
    Some(Outer {
        end: run.end,
        foldable,
    })
}
