// The validating reader: whether words hold a tree, and where it ends. It can be handed anything: it reads no word that
// is not there, whatever counts and details say. Internal: the entry points of the crates above call `read_words`.
#![tactic(auto)]

ghost use Rattle.std.specs.Prelude.{◌≡◌, take, drop};
ghost use Rattle.refusal.specs.Answers.{outcome_of};
ghost use Rattle.spec.specs.Reading.{read_at, read_words};
ghost use Rattle.steps.specs.Steps.{next_of, pay_step, under};
ghost use Rattle.tables.specs.Kinds.{node_number};
ghost use Rattle.reader.specs.Answers.{passed};
ghost use Rattle.reader.specs.Owns.{sort_of, OwnRead};

use ir::node::word_or_zero;
use refusal::{Refusal, count_right};
use spec::Sort;
use tables::header::{detail_of, kind_of};
use tables::kind::NodeKind;

// The first `count` words from a place on, or all that are left if there are fewer.
fn words_from(words: &[u32], at: usize, count: usize) -> &[u32]
    ensures { result.now ≡ take count (drop at words.now) }
{
    let rest = words.get(at..).unwrap_or(&[]);
    rest.get(..count).unwrap_or(rest)
}

// Reads the payload words of a node, the first of them at `at`. `pay_end` of `steps` checks the same and answers None:
// it has no refusal to give, and this one says which and where.
#[tactic(auto, using(steps::proofs::Cuts::payload))]
fn read_pay(words: &[u32], at: usize, kind: NodeKind, d: u32) -> Result<usize, Refusal>
    ensures { outcome_of result ≡ pay_step words.now at (node_number kind) d }
{
    let first = word_or_zero(words, at);
    let count = kind.pay_count(d, first);
    let pay = words_from(words, at, count);
    for (i, word) in pay.iter().enumerate() {
        if !kind.pay_right(d, i, *word) {
            return Err(Refusal::WrongWord(at + i));
        }
    }
    let read = pay.len();
    if read < count {
        return Err(Refusal::EndsEarly(at + read));
    }
    Ok(at + read)
}

// What stands at a place, its own words read: a node's kind, None for a list, where its parts begin, and how many.
#[derive(Clone, Copy)]
struct Own {
    kind: Option<NodeKind>,
    first: usize,
    count: u32,
}

impl Own {
    // What part i is.
    fn part_sort(self, i: u32) -> Sort
        ensures { result ≡ sort_of self.kind i }
    {
        match self.kind {
            Some(kind) => kind.part_sort(i),
            None => Sort::Stmt,
        }
    }
}

// Reads the own words of what stands at a place: a list's count, or a node's header and payload.
#[tactic(auto, using(tables::proofs::Nones::head_none), unfolding(steps::specs::Steps::own_step))]
fn read_own(words: &[u32], sort: Sort, at: usize, levels: u32) -> Result<Own, Refusal>
    ensures { OwnRead levels words.now sort at result }
{
    let h = *words.get(at).ok_or(Refusal::EndsEarly(at))?;
    if sort == Sort::List {
        return Ok(Own {
            kind: None,
            first: at + 1,
            count: h,
        });
    }
    if levels == 0 {
        return Err(Refusal::TooDeep(at));
    }
    let kind = NodeKind::try_from(kind_of(h)).map_err(|_| Refusal::WrongWord(at))?;
    let d = detail_of(h);
    if !kind.head_right(sort, d) {
        return Err(Refusal::WrongWord(at));
    }
    let first = read_pay(words, at + 1, kind, d)?;
    let w = word_or_zero(words, at + 1);
    let count = kind.part_count(d, w);
    Ok(Own {
        kind: Some(kind),
        first,
        count,
    })
}

// How many levels are left for the parts.
fn levels_under(sort: Sort, levels: u32) -> u32
    ensures { result ≡ under levels sort }
{
    if sort == Sort::List {
        return levels;
    }
    levels.saturating_sub(1)
}

// Reads what stands at a place, with so many levels left: own words, then the parts.
#[tactic(auto, using(crate::proofs::Goes::parts))]
pub fn read_at(words: &[u32], sort: Sort, at: usize, levels: u32) -> Result<usize, Refusal>
    ensures { outcome_of result ≡ next_of (read_at levels words.now sort at) }
{
    let own = read_own(words, sort, at, levels)?;
    let below = levels_under(sort, levels);
    let mut next = own.first;
    for i in 0..own.count {
        let want = own.part_sort(i);
        let part = read_at(words, want, next, below);
        // `?` would do, as above, but document 01 wants this form where the reader meets a refusal of its own.
        let Ok(end) = part else {
            return part;
        };
        next = end;
    }
    Ok(next)
}

// Whether the words are one expression (`Expr`) or a rule (`List`), and nothing more: by the quick walk where it
// accepts them, else exactly.
#[tactic(auto, using(crate::proofs::Whole::whole_words))]
pub fn read_words(words: &[u32], sort: Sort) -> Result<(), Refusal>
    ensures { outcome_of result ≡ passed (read_words sort words.now) }
{
    let n = words.len();
    if !count_right(n) {
        return Err(Refusal::WordCount(n));
    }
    let behind = quick::words_end(words, sort);
    if behind == Some(n) {
        return Ok(());
    }
    let end = read_at(words, sort, 0, 200)?;
    if end < n {
        return Err(Refusal::WordsRemain(end));
    }
    Ok(())
}
