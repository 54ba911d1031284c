// The lines that programs print for words that are read: whether they are accepted, and the four verdicts on an
// expression.
#![tactic(auto)]

use spec::{Sort, Truth};
use std::io;
use std::io::Print;

// Prints `accepted` or `refused N at P` for words of a sort.
pub fn print_reading(rt: &impl Print, words: &[u32], sort: Sort) -> io::Result<()> {
    match reader::read_words(words, sort) {
        Ok(()) => println!(rt; "accepted"),
        Err(refusal) => println!(rt; "{refusal}"),
    }
}

// Prints the four verdicts on an expression, or the refusal that all four give.
pub fn print_verdicts(rt: &impl Print, words: &[u32]) -> io::Result<()> {
    let pure = verdict::is_pure_infallible(words);
    let truth = verdict::is_pure_infallible_to_bool(words);
    let definite = verdict::is_definitely_bool(words);
    let empty = verdict::is_iterable_empty(words);
    match (pure, truth, definite, empty) {
        (Ok(pure), Ok(truth), Ok(definite), Ok(empty)) => {
            println!(rt;
                "pure {} truth {} bool {} empty {}",
                yes_or_no(pure),
                truth_word(truth),
                yes_or_no(definite),
                yes_or_no(empty)
            )
        }
        (Err(first), Err(second), Err(third), Err(fourth))
            if (first == second) & (first == third) & (first == fourth) => {
            println!(rt; "{first}")
        }
        _ => println!(rt; "the four verdicts do not refuse alike"),
    }
}

// No Display: that of `bool` says `true` and `false`.
fn yes_or_no(verdict: bool) -> &'static str {
    if verdict { "yes" } else { "no" }
}

// No Display: `Truth` is declared in the crate `spec`, which has no function.
fn truth_word(truth: Truth) -> &'static str {
    match truth {
        Truth::Yes => "yes",
        Truth::No => "no",
        Truth::Unknown => "unknown",
    }
}
