// The entry point: one pass over the rule that the words hold. It has no `requires`.
ghost use Rattle.std.specs.Prelude.{◌≤◌, length};
ghost use Rattle.spec.specs.Pruning.{prune_on};
ghost use Rattle.prune.specs.Answers.{Met, Alike, LeftStanding, WordsAsk, WordsDone, RuleAsk, PassAsk, PassDone};
ghost use Rattle.prune.specs.Answers.{GiveAsk, GiveDone};

use buffer::{copy_in, zero_fill};
use ir::write::write_word;
use outer::{Outer, optimize_outer};
use pass::optimize_list;
use reader::read_words;
use refusal::{Refusal, count_right};
use spec::Sort;

// How many words were put at the start of the result, and how many foldable places were met.
#[derive(Clone, Copy, Debug, PartialEq, Eq)]
pub struct Counts {
    pub size: usize,
    pub foldable: usize,
}

// Prunes the rule that the words hold: the pruned rule's words go to the result. Refusals 5 to 11. `work` lends at
// least 16 words for each word and 64 more; they are zero afterwards, unless the refusal is 5 or 6.
#[tactic(auto, using(crate::proofs::Entries::words_alike, crate::proofs::Entries::words_left_standing))]
pub fn prune(words: &[u32], work: &mut [u32], res: &mut [u32]) -> Result<Counts, Refusal>
    ensures met { Met (prune_on words.now (length work.old) (length res.old))
        work.old res.old result work.new res.new }
    ensures alike { Alike words.now result res.new }
    ensures left_standing { LeftStanding result res.new }
{
    let n = words.len();
    if !count_right(n) {
        return Err(Refusal::WordCount(n));
    }
    let need = 16 * n + 64;
    if work.len() < need {
        return Err(Refusal::ShortWork(need));
    }
    let answer = prune_words(words, &mut work[..need], res);
    zero_fill(work);
    answer
}

// The same for words that are neither too many nor too few, with as much work as they need, which is left as the pass
// leaves it. Refusals 7 to 11. The rule is read and pruned together; only where this tells nothing it is read first.
#[tactic(auto, using(crate::proofs::Copied::give_done, crate::proofs::Outers::outer_rule))]
fn prune_words(words: &[u32], work: &mut [u32], res: &mut [u32]) -> Result<Counts, Refusal>
    requires { WordsAsk (length words.now) (length work.old) }
    ensures { WordsDone words.now res.old result res.new }
{
    let n = words.len();
    copy_in(words, work);
    let Some(outer) = optimize_outer(work, n) else {
        return prune_read(words, work, res);
    };
    give(work, n, outer, res)
}

// The same, read first and pruned then.
#[tactic(auto, using(crate::proofs::Entries::rule_ask))]
fn prune_read(words: &[u32], work: &mut [u32], res: &mut [u32]) -> Result<Counts, Refusal>
    requires { WordsAsk (length words.now) (length work.old) }
    ensures { WordsDone words.now res.old result res.new }
{
    read_words(words, Sort::List)?;
    prune_rule(words, work, res)
}

// The same for a rule that is accepted. Refusal 11.
#[tactic(auto, using(crate::proofs::Copied::pass_ask))]
fn prune_rule(words: &[u32], work: &mut [u32], res: &mut [u32]) -> Result<Counts, Refusal>
    requires { RuleAsk words.now (length work.old) }
    ensures { WordsDone words.now res.old result res.new }
{
    let n = words.len();
    copy_in(words, work);
    let passed = pass_rule(work, n);
    give(work, n, passed, res)
}

// The words from n up to the rule's end to the result, if they fit: else refusal 11.
fn give(work: &[u32], n: usize, outer: Outer, res: &mut [u32]) -> Result<Counts, Refusal>
    requires { GiveAsk (length work.now) n outer.end }
    ensures { GiveDone work.now n outer res.old result res.new }
{
    let Outer { end, foldable } = outer;
    let size = end - n;
    if res.len() < size {
        return Err(Refusal::ShortResult(size));
    }
    copy_in(&work[n..end], res);
    Ok(Counts { size, foldable })
}

// The rule of n words at the start of the words, pruned, behind it.
fn pass_rule(words: &mut [u32], n: usize) -> Outer
    requires { PassAsk words.old n }
    ensures { PassDone words.old words.new n result }
{
    let top = write_word(words, n, 0);
    let made = optimize_list(words, 0, top);
    let run = made.run;
    write_word(words, n, run.count as u32);
    Outer {
        end: run.end,
        foldable: made.foldable,
    }
}
