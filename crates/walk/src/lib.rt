// Walks over words that are only read: what an expression weighs, and where a list ends. Internal: the pass calls these
// on its work words.
#![tactic(auto)]

ghost use Rattle.std.specs.Prelude.{◌≡◌};
ghost use Rattle.ir.specs.Standing.{SomeExpr};
ghost use Rattle.walk.specs.Walked.{weight_by, IsWeighed, SomeList, ListEnds, IsList};

use ir::node::{extent_at, word_or_zero};
use reader::read_at;
use spec::Sort;

// Where an expression ends, and its weight.
#[derive(Clone, Copy, Debug, PartialEq, Eq)]
pub struct Weighed {
    pub next: usize,
    pub weight: usize,
}

// What the own words of a node weigh, by their number.
fn own_weight(words: usize) -> usize
    ensures { result ≡ weight_by words }
{
    words.max(2)
}

// Where the expression at a place ends, and its weight. `while`: nothing is counted up to a bound, it goes on while
// expressions are left.
#[tactic(auto, using(crate::proofs::Scales::weighs))]
pub fn weigh(words: &[u32], at: usize) -> Weighed
    requires { SomeExpr words.now at }
    ensures { IsWeighed words.now at result }
{
    let mut next = at;
    let mut weight = 0;
    let mut left: usize = 1;
    while 0 < left {
        let node = extent_at(words, next);
        weight += own_weight(node.own);
        next += node.own;
        left = left - 1 + node.count as usize;
    }
    Weighed { next, weight }
}

// A list of statements: how many they are, and where the first one stands.
#[derive(Clone, Copy)]
pub struct List {
    pub count: u32,
    pub first: usize,
}

pub fn list_at(words: &[u32], at: usize) -> List
    requires { SomeList words.now at }
    ensures { IsList words.now at result }
{
    let count = word_or_zero(words, at);
    List {
        count,
        first: at + 1,
    }
}

// Where the list at a place ends.
#[tactic(auto, using(crate::proofs::Ends::ends))]
pub fn list_end(words: &[u32], at: usize) -> usize
    requires { SomeList words.now at }
    ensures { ListEnds words.now at result }
{
    read_at(words, Sort::List, at, u32::MAX).unwrap()
}
