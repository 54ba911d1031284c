// Lists of statements in the making, in work words: `StmtsCompiled` as a run of statements. Internal: the crate `stmt`
// and the pass over a rule call these.
#![tactic(auto)]

ghost use Rattle.std.specs.Prelude.{◌≡◌, ◌+◌, ◌<◌, ◌^◌, length};
ghost use Rattle.buffer.specs.Copy.{PutAsk};
ghost use Rattle.runs.specs.Held.{EmptyDone, SingleDone, OnlyDone, ExtendAsk, ExtendDone, PlaceDone, ForAsk, ForDone};
ghost use Rattle.runs.specs.Held.{ListAsk, ListDone, first_of, CloseAsk, CloseDone};
ghost use Rattle.runs.specs.Held.{BackAsk, BackDone, OneAsk, OneDone, WriteAsk, WriteDone};

use buffer::put;
use expr_bool::{Arms, Condition, Slot, new};
use ir::write::{write_head, write_word};
use purity::expr::is_iterable_empty;
use tables::stmts::StmtKind;

// Statements one behind the other, without a count word: where they begin and end, how many they are, and whether the
// last one is a Break, a Continue or a Return.
#[derive(Clone, Copy, Debug, PartialEq, Eq)]
pub struct Run {
    pub at: usize,
    pub end: usize,
    pub count: usize,
    pub last: bool,
}

impl Run {
    // No statement.
    #[tactic(auto, unfolding(spec::specs::PassStmts::is_terminal))]
    pub fn empty(at: usize) -> Run
        ensures { EmptyDone at result }
    {
        Run {
            at,
            end: at,
            count: 0,
            last: false,
        }
    }

    // One statement from `at` up to `end`, which is no Break, Continue or Return.
    #[tactic(auto, unfolding(spec::specs::PassStmts::is_terminal, spec::specs::PassStmts::one))]
    pub fn single(at: usize, end: usize) -> Run
        ensures { SingleDone at end result }
    {
        Run {
            at,
            end,
            count: 1,
            last: false,
        }
    }

    // The run `right` stands behind this one, and is dropped where this one exits.
    #[tactic(auto, using(spec::proofs::Exits::extend_exits))]
    pub fn extend(self, right: Run) -> Run
        requires { ExtendAsk self right }
        ensures { ExtendDone self right result }
    {
        if self.last {
            return self;
        }
        Run {
            at: self.at,
            count: self.count + right.count,
            ..right
        }
    }

    // The run from top on: above the place where it stands, or at a lower place.
    #[tactic(auto, using(crate::proofs::Holding::holds_put))]
    pub fn place(self, words: &mut [u32], top: usize) -> Run
        requires { PutAsk (length words.old) self.at self.end top }
        ensures { PlaceDone words.old words.new self top result }
    {
        let end = put(words, self.at, self.end, top);
        Run {
            at: top,
            end,
            ..self
        }
    }

    // This run as the first arm, or as the second one where `or` is true, with nothing in the other one. A bool and no
    // `LogicalBinOp`, here and below: it says which arm, and each use is an `if`, where a match would be longer.
    pub fn only(self, or: bool) -> Arms<Run>
        ensures { OnlyDone self or result }
    {
        let none = Run::empty(self.end);
        if or {
            return Arms {
                yes: none,
                no: self,
            };
        }
        Arms {
            yes: self,
            no: none,
        }
    }
}

// A For from `at` up to `end`, which loops over the expression at `over`: nothing where that is empty.
pub fn for_stmt(words: &[u32], at: usize, over: usize, end: usize) -> Run
    requires { ForAsk words.now at over end }
    ensures { ForDone words.now at over end result }
{
    if is_iterable_empty(words, over) {
        return Run::empty(at);
    }
    Run::single(at, end)
}

// The condition at `at`, simplified, at the back of its slot: the constant, or where it begins.
#[tactic(auto, using(crate::proofs::Backs::backs))]
pub fn settle_back(words: &mut [u32], slot: Slot, at: usize, top: usize) -> Condition
    requires { BackAsk words.old slot.low at slot.high top }
    ensures { BackDone words.old words.new slot.low at slot.high top result }
{
    match new(words, at, top) {
        Condition::Const(b) => Condition::Const(b),
        Condition::Expr(end) => {
            let size = end - top;
            let back = slot.high - size;
            put(words, top, end, back);
            Condition::Expr(back)
        }
    }
}

// The expression from `at` up to `end` as a statement, from top on.
#[tactic(auto, using(crate::proofs::Writings::one_put))]
pub fn write_expr(words: &mut [u32], at: usize, end: usize, top: usize) -> Run
    requires { OneAsk words.old at end top }
    ensures { OneDone words.old words.new at end top result }
{
    let body = write_head(words, top, StmtKind::Expr, 0);
    let last = put(words, at, end, body);
    Run::single(top, last)
}

// A run with its count word in front of it, from top on, and where it ends.
#[tactic(auto, using(crate::proofs::Writings::list_put, spec::proofs::Counts::row_counts))]
fn write_list(words: &mut [u32], run: Run, top: usize) -> usize
    requires { ListAsk words.old run top }
    ensures { ListDone words.old words.new run top result }
{
    let body = write_word(words, top, run.count as u32);
    put(words, run.at, run.end, body)
}

// If with the condition from `at` up to `end` and both arms as a statement, from top on.
#[tactic(auto, using(crate::proofs::Writings::if_put))]
pub fn write_if(words: &mut [u32], at: usize, end: usize, arms: Arms<Run>, top: usize) -> Run
    requires { WriteAsk words.old at end arms top }
    ensures { WriteDone words.old words.new at end arms top result }
{
    let body = write_head(words, top, StmtKind::If, 0);
    let lists = put(words, at, end, body);
    let other = write_list(words, arms.yes, lists);
    let last = write_list(words, arms.no, other);
    Run::single(top, last)
}

// Where the statements of an arm begin whose If's condition ends at `arms`: behind the count word of the first arm, or
// where `or` is true behind that of the second one, with nothing in the first.
pub fn first_of(arms: usize, or: bool) -> usize
    requires { arms + 2 < 2 ^ 64 }
    ensures { result ≡ first_of arms or }
{
    if or { arms + 2 } else { arms + 1 }
}

// An If at top whose condition ends at `arms`, with a run as its first arm, or as its second one where `or` is true,
// which stands where that arm's statements go: the header and both count words are written.
#[tactic(auto, using(crate::proofs::Closings::close_places, spec::proofs::Counts::row_counts))]
pub fn close_logic(words: &mut [u32], top: usize, arms: usize, run: Run, or: bool) -> Run
    requires { CloseAsk words.old top arms run or }
    ensures { CloseDone words.old words.new top arms run or result }
{
    let count = run.count as u32;
    write_head(words, top, StmtKind::If, 0);
    if or {
        let second = write_word(words, arms, 0);
        write_word(words, second, count);
        return Run::single(top, run.end);
    }
    write_word(words, arms, count);
    let last = write_word(words, run.end, 0);
    Run::single(top, last)
}
