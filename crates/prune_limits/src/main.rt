// Prunes the rules of a list of cases, which are as deep or as wide as they may be, or just past the limits, or take
// most stack of all that were found. Prints a line for each: `N: `, N being its number from 1, and how many words the
// pruned rule has and how many foldable places were met, or a refusal. 512 KiB of stack beside its arrays are enough
// (`tools/limits_stack.sh` tries it).
//
// The list is decimal numbers on standard input, white space between them. A case is a number of runs and then the
// runs:
//
//     RUNS, and so many times: TIMES SIZE word ..   the SIZE words, standing TIMES times one after the other
//
// The rule is all the runs one behind the other. `tools/prune_list.py`, which makes the list, has a name for each case.
// A list that is not so, or that asks for more than is lent, stops at its first wrong case, with a line that says
// where.
#![tactic(auto)]

ghost use Rattle.std.specs.Prelude.{◌≤◌, ⊤, length, MatchOption};

use case_list::{Cases, Stop, number_at};
use std::io;
use std::io::Print;

// A program has no heap: the numbers that are read, one more than a list may have, stand on the stack, and so do the
// words of a rule, some more than it may have, and the work words and result words that are lent.
const NUMBERS: usize = 8192;

const WORDS: usize = 16384;

const WORK: usize = 258112;

const RESULT: usize = 50000;

// How many cases were run.
#[derive(Clone, Copy)]
struct LimitCases {
    number: usize,
}

impl Cases for LimitCases {
    fn size(&self, numbers: &[u32]) -> usize {
        let mut at = 1;
        for _ in 0..number_at(numbers, 0) {
            if numbers.len() < at {
                return at;
            }
            at += 2 + number_at(numbers, at + 1) as usize;
        }
        at
    }

    fn run<P: Print>(&mut self, rt: &P, case: &[u32]) -> Result<(), Stop> {
        let mut space = [0u32; WORDS];
        let size = lay_case(case, &mut space).ok_or(Stop::TooMuch)?;
        self.number = self.number.saturating_add(1);
        show(rt, self.number, &space[..size])?;
        Ok(())
    }
}

// Reads the list and runs it.
fn main(rt: HostRuntime) -> io::Result<()> {
    let mut numbers = [0u32; NUMBERS];
    case_list::run_list(&rt, &mut LimitCases { number: 0 }, &mut numbers)
}

// Lays the rule of a case into the space, run by run, and answers how many words it has, if they fit.
fn lay_case(case: &[u32], space: &mut [u32]) -> Option<usize>
    ensures { MatchOption result ⊤ (λ size. size ≤ length space.new) }
{
    let mut runs = case_list::behind(case, 1);
    let mut size = 0;
    for _ in 0..number_at(case, 0) {
        let times = number_at(runs, 0) as usize;
        let words = case_list::behind(runs, 2);
        let count = words.len().min(number_at(runs, 1) as usize);
        size += lay_run(&words[..count], times, &mut space[size..])?;
        runs = &words[count..];
    }
    Some(size)
}

// Lays the words into the space so many times, and answers how many there are then, if the space has room for them.
fn lay_run(words: &[u32], times: usize, space: &mut [u32]) -> Option<usize>
    ensures { MatchOption result ⊤ (λ size. size ≤ length space.new) }
{
    let count = words.len();
    if count == 0 {
        return Some(0);
    }
    let size = count.checked_mul(times)?;
    if space.len() < size {
        return None;
    }
    for run in space[..size].chunks_exact_mut(count) {
        run.copy_from_slice(words);
    }
    Some(size)
}

// Prints the number, and the line for the rule.
fn show(rt: &impl Print, number: usize, words: &[u32]) -> io::Result<()> {
    let mut work = [0u32; WORK];
    let mut result = [0u32; RESULT];
    print!(rt; "{number}: ")?;
    tidy::print_size(rt, words, &mut work, &mut result)
}
