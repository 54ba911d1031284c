// Prints what the pass makes of expressions that are as deep or as wide as they may be: the optimized expression, and
// its statements. 2 MiB of stack are enough for it.
#![tactic(auto)]

ghost use Rattle.std.specs.Prelude.{◌≤◌, ◌<◌, ◌+◌, ◌*◌, ◌^◌, length};
ghost use Rattle.expr_limits.specs.Room.{PassAsk, RestAsk};

use buffer::zero_fill;
use in_place::expr_in_place;
use optimize::optimize;
use reader::read_words;
use spec::Sort;
use std::io::Print;
use std::{fmt, io};
use tables::details::{Builtin1, LogicalBinOp};
use tables::exprs::ExprKind;
use tables::header::header_of;

// Room for an expression of 16,384 words, and 16 times as much for the pass. A program has no heap: the words stand on
// the stack.
const WORDS: usize = 278528;

// Nests and chains of so many levels, some around a list that fills 16,127 words, and lists alone.
fn main(rt: HostRuntime) -> io::Result<()> {
    let mut words = [0; WORDS];
    let not = header_of(ExprKind::Builtin1, Builtin1::Not as u32);
    let and = header_of(ExprKind::LogicalBinOp, LogicalBinOp::And as u32);
    let or = header_of(ExprKind::LogicalBinOp, LogicalBinOp::Or as u32);
    let seq = header_of(ExprKind::Seq, 0);
    let branch = header_of(ExprKind::If, 0);
    let list = header_of(ExprKind::List, 8063);
    let tuple = header_of(ExprKind::Tuple, 8063);
    run_nest(&rt, "Not 199: ", &mut words, not, 199, 0, 1)?;
    run_nest(&rt, "Not 200: ", &mut words, not, 200, 0, 1)?;
    run_chain(&rt, "And 199 right: ", &mut words, and, 199, 0, 1)?;
    run_nest(&rt, "And 199 left: ", &mut words, and, 199, 0, 200)?;
    run_nest(&rt, "Or 199 left: ", &mut words, or, 199, 0, 200)?;
    run_chain(&rt, "Seq 199 right: ", &mut words, seq, 199, 0, 1)?;
    run_nest(&rt, "Seq 199 left: ", &mut words, seq, 199, 0, 200)?;
    run_chain(&rt, "If 199 arms: ", &mut words, branch, 199, 0, 200)?;
    run_nest(&rt, "If 199 conditions: ", &mut words, branch, 199, 0, 399)?;
    run_nest(&rt, "Not 198 list: ", &mut words, not, 198, 7964, 7964)?;
    run_chain(
        &rt,
        "And 198 right list: ",
        &mut words,
        and,
        198,
        7766,
        7766,
    )?;
    run_nest(&rt, "And 198 left list: ", &mut words, and, 198, 7766, 7964)?;
    run_chain(
        &rt,
        "Seq 198 right list: ",
        &mut words,
        seq,
        198,
        7766,
        7766,
    )?;
    run_nest(&rt, "Seq 198 left list: ", &mut words, seq, 198, 7766, 7964)?;
    run_nest(&rt, "If 198 list: ", &mut words, branch, 198, 7568, 7964)?;
    run_nest(&rt, "List of 8063: ", &mut words, list, 1, 0, 8063)?;
    run_nest(&rt, "Tuple of 8063: ", &mut words, tuple, 1, 0, 8063)
}

// A header `times` times, then a list's header where `parts` is not 0, and then so many locals: each node is the first
// part of the one before it. The numbers of a case go singly: in a struct they would take a line each, above, and so
// they would with an Option for the parts.
fn run_nest(
    rt: &impl Print,
    title: &str,
    words: &mut [u32; WORDS],
    header: u32,
    times: usize,
    parts: u32,
    locals: usize,
) -> io::Result<()>
    requires locals_bound { times + (2 * locals + 1) ≤ 16384 }
    requires parts_bound { parts < 2 ^ 24 }
{
    zero_fill(words);
    words[..times].fill(header);
    run_rest(rt, title, words, times, parts, locals)
}

// The same with a local behind each header: each node is the second part of the one before it. Two functions: one that
// is told how to lay the headers would take a parameter more.
fn run_chain(
    rt: &impl Print,
    title: &str,
    words: &mut [u32; WORDS],
    header: u32,
    times: usize,
    parts: u32,
    locals: usize,
) -> io::Result<()>
    requires locals_bound { 3 * times + (2 * locals + 1) ≤ 16384 }
    requires parts_bound { parts < 2 ^ 24 }
{
    zero_fill(words);
    put_threes(words, times, header);
    run_rest(rt, title, words, 3 * times, parts, locals)
}

// Puts the list's header and the locals behind the first words, and prints what is made of it all.
fn run_rest(
    rt: &impl Print,
    title: &str,
    words: &mut [u32],
    at: usize,
    parts: u32,
    locals: usize,
) -> io::Result<()>
    requires { RestAsk words.old at parts locals }
{
    let first = put_list(words, at, parts);
    put_locals(words, first, locals);
    let size = first + 2 * locals;
    show(rt, title, words, size)
}

// A header and a local in each three words, whose third is the local's slot, which is 0.
fn put_threes(words: &mut [u32], times: usize, header: u32)
    requires { 3 * times ≤ length words.old }
{
    let (threes, _) = words[..3 * times].as_chunks_mut::<3>();
    threes.fill([header, ExprKind::Local as u32, 0]);
}

// So many locals from a place on, each with slot 0.
fn put_locals(words: &mut [u32], from: usize, times: usize)
    requires { from + 2 * times ≤ length words.old }
{
    let (locals, _) = words[from..from + 2 * times].as_chunks_mut::<2>();
    locals.fill([ExprKind::Local as u32, 0]);
}

// A list's header, where it has parts, and the place behind it.
fn put_list(words: &mut [u32], at: usize, parts: u32) -> usize
    requires { (at < length words.old) × (parts < 2 ^ 24) }
    ensures { result ≤ at + 1 }
{
    if parts == 0 {
        return at;
    }
    words[at] = header_of(ExprKind::List, parts);
    at + 1
}

// Prints the title, and what is made of the first n words, if they are one expression.
fn show(rt: &impl Print, title: &str, words: &mut [u32], n: usize) -> io::Result<()>
    requires { (17 * n ≤ length words.old) × (length words.old < 2 ^ 32) }
{
    print!(rt; "{title}")?;
    match read_words(&words[..n], Sort::Expr) {
        Err(refusal) => println!(rt; "{refusal}"),
        Ok(()) => {
            let made = pruned(words, n);
            println!(rt; "{n} words, {made}")
        }
    }
}

// How many words the optimized expression has, how many foldable places were met, how many statements were made, and
// how many words these have.
#[derive(Clone, Copy)]
struct Made {
    size: usize,
    foldable: usize,
    count: usize,
    words: usize,
}

impl fmt::Display for Made {
    fn fmt<W: fmt::Write>(&self, f: &mut fmt::Formatter<W>) -> fmt::Result {
        write!(
            f,
            "optimized {}, foldable {}, statements {} of words {}",
            self.size, self.foldable, self.count, self.words
        )
    }
}

// The expression in the first n words is optimized behind them and the place of a statement's header, and its
// statements are made there.
#[tactic(auto, using(crate::proofs::Shown::row_ask))]
fn pruned(words: &mut [u32], n: usize) -> Made
    requires { PassAsk words.old n }
{
    let body = n + 1;
    let passed = optimize(words, 0, body);
    let run = expr_in_place(words, n, passed.end);
    Made {
        size: passed.end - body,
        foldable: passed.foldable,
        count: run.count,
        words: run.end - n,
    }
}
