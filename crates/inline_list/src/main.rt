// Runs a list of cases through the two inlining checks, and prints a line for each.
//
// The list is decimal numbers on standard input, white space between them. A case is one of
//
//     1 PARAMS 0 0 0 COUNT word ..                           whether the expression is safe to inline
//     2 PARAMS POSITIONAL STAR VARIABLES COUNT word ..       what the body gives; POSITIONAL and STAR are 0 or 1
//
// A list that is not so, or that is too long, stops at its first wrong case, with a line that says where.
#![tactic(auto)]

use case_list::{Cases, NoForm, Stop, number_at};
use def_inline::InlineDefBody;
use std::io;
use std::io::Print;

// The numbers of a case before its words.
const HEAD: usize = 6;

// Which of the two checks is asked for.
#[derive(Clone, Copy)]
enum Form {
    Expr,
    Body,
}

// The one place with the numbers of the forms: a list is decimal numbers.
impl TryFrom<u32> for Form {
    type Error = NoForm;

    fn try_from(number: u32) -> Result<Form, NoForm> {
        match number {
            1 => Ok(Form::Expr),
            2 => Ok(Form::Body),
            _ => Err(NoForm(number)),
        }
    }
}

#[derive(Clone, Copy)]
struct InlineCases;

impl Cases for InlineCases {
    fn size(&self, numbers: &[u32]) -> usize {
        HEAD + number_at(numbers, HEAD - 1) as usize
    }

    fn run<P: Print>(&mut self, rt: &P, case: &[u32]) -> Result<(), Stop> {
        let form = Form::try_from(number_at(case, 0))?;
        let params = number_at(case, 1);
        let positional = number_at(case, 2) == 1;
        let star = number_at(case, 3) == 1;
        let variables = number_at(case, 4);
        let words = case_list::behind(case, HEAD);
        match form {
            Form::Expr => print_safe(rt, words, params)?,
            Form::Body => print_inline(rt, words, params, positional, star, variables)?,
        }
        Ok(())
    }
}

// Reads the list and runs it.
fn main(rt: HostRuntime) -> io::Result<()> {
    let mut numbers = [0u32; case_list::NUMBERS];
    case_list::run_list(&rt, &mut InlineCases, &mut numbers)
}

// Prints `yes V` or `no V` with the visits, or `refused N at P`. The words of an answer are this program's.
fn print_safe(rt: &impl Print, words: &[u32], params: u32) -> io::Result<()> {
    match def_inline::is_safe_to_inline_expr(words, params) {
        Ok(safety) => {
            let word = if safety.safe { "yes" } else { "no" };
            println!(rt; "{word} {}", safety.visits)
        }
        Err(refusal) => println!(rt; "{refusal}"),
    }
}

// Prints `neither`, `type T`, `safe W`, `none`, or `refused N at P`. The words of an answer are this program's. What is
// asked is document 01's list, as `inline_def_body` takes it: a struct would be taken apart at once.
fn print_inline(
    rt: &impl Print,
    words: &[u32],
    params: u32,
    positional: bool,
    star: bool,
    variables: u32,
) -> io::Result<()> {
    match def_inline::inline_def_body(words, params, positional, star, variables) {
        Ok(InlineDefBody::Neither) => println!(rt; "neither"),
        Ok(InlineDefBody::TypeTest(text)) => println!(rt; "type {text}"),
        Ok(InlineDefBody::Safe(at)) => println!(rt; "safe {at}"),
        Ok(InlineDefBody::NoneValue) => println!(rt; "none"),
        Err(refusal) => println!(rt; "{refusal}"),
    }
}
