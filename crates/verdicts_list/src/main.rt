// Runs a list of cases through the reader and the four verdicts on an expression, and prints a line for each.
//
// The list is decimal numbers on standard input, white space between them. A case is one of
//
//     1 COUNT word ..             the four verdicts on the words
//     2 COUNT word ..             whether the words are an expression
//     3 COUNT word ..             whether the words are a rule
//     4 AT TIMES COUNT word ..    like 1, 2 and 3, on the words with word AT, counted from 0, standing TIMES times:
//     5 AT TIMES COUNT word ..    for deep nests and wide lists
//     6 AT TIMES COUNT word ..
//
// A list that is not so, or that asks for more than is lent, stops at its first wrong case, with a line that says
// where.
#![tactic(auto)]

ghost use Rattle.std.specs.Prelude.{◌≤◌};

use case_list::{Cases, NoForm, Repeat, Stop, number_at};
use spec::Sort;
use std::io;
use std::io::Print;

// A program has no heap: the words that are lent where one is repeated stand on the stack, the most of them.
const WORDS: usize = 16640;

// What is asked of words.
#[derive(Clone, Copy)]
enum Asked {
    Verdicts,
    Reading(Sort),
}

// What is asked, of the words of the case or of these with one repeated.
#[derive(Clone, Copy)]
enum Form {
    Given(Asked),
    Repeated(Asked),
}

// The one place with the numbers of the forms: a list is decimal numbers.
impl TryFrom<u32> for Form {
    type Error = NoForm;

    fn try_from(number: u32) -> Result<Form, NoForm> {
        match number {
            1 => Ok(Form::Given(Asked::Verdicts)),
            2 => Ok(Form::Given(Asked::Reading(Sort::Expr))),
            3 => Ok(Form::Given(Asked::Reading(Sort::List))),
            4 => Ok(Form::Repeated(Asked::Verdicts)),
            5 => Ok(Form::Repeated(Asked::Reading(Sort::Expr))),
            6 => Ok(Form::Repeated(Asked::Reading(Sort::List))),
            _ => Err(NoForm(number)),
        }
    }
}

impl Form {
    // How many numbers of a case stand before its words; the last of them is the count of the words.
    fn head(self) -> usize
        ensures within { 1 ≤ result }
        ensures small { result ≤ 4 }
    {
        match self {
            Form::Given(_) => 2,
            Form::Repeated(_) => 4,
        }
    }
}

#[derive(Clone, Copy)]
struct VerdictCases;

impl Cases for VerdictCases {
    // A form that there is not has its number alone, and `run` turns it back.
    fn size(&self, numbers: &[u32]) -> usize {
        match Form::try_from(number_at(numbers, 0)) {
            Ok(form) => {
                let head = form.head();
                head + number_at(numbers, head - 1) as usize
            }
            Err(_) => 1,
        }
    }

    fn run<P: Print>(&mut self, rt: &P, case: &[u32]) -> Result<(), Stop> {
        let form = Form::try_from(number_at(case, 0))?;
        let words = case_list::behind(case, form.head());
        match form {
            Form::Given(asked) => print_asked(rt, asked, words)?,
            Form::Repeated(asked) => run_repeated(rt, asked, words, Repeat::told(case, 1))?,
        }
        Ok(())
    }
}

// Reads the list and runs it.
fn main(rt: HostRuntime) -> io::Result<()> {
    let mut numbers = [0u32; case_list::NUMBERS];
    case_list::run_list(&rt, &mut VerdictCases, &mut numbers)
}

// Prints the line for words.
fn print_asked(rt: &impl Print, asked: Asked, words: &[u32]) -> io::Result<()> {
    match asked {
        Asked::Verdicts => verdict_lines::print_verdicts(rt, words),
        Asked::Reading(sort) => verdict_lines::print_reading(rt, words, sort),
    }
}

// The same for the words, one of them repeated.
fn run_repeated(rt: &impl Print, asked: Asked, words: &[u32], repeat: Repeat) -> Result<(), Stop> {
    let mut space = [0u32; WORDS];
    let size = case_list::put_repeated(words, repeat, &mut space)?;
    print_asked(rt, asked, &space[..size])?;
    Ok(())
}
