// The lines that programs print of pruning: what `cardtidy` prints for a file, and what is printed for words.
#![tactic(auto)]

use prune::prune;
use std::io;
use std::io::Print;

// The words that `cardtidy` lends for a rule, for the work and for the result: fixed arrays, as the project has no
// heap.
const WORDS: usize = 16384;

// Prints what `cardtidy` prints for a file: `words N foldable F` and then the pruned words, one a line, or
// `refused N at P`.
pub fn print_tidied(rt: &impl Print, file: &[u8]) -> io::Result<()> {
    let mut words = [0u32; WORDS];
    match blocks::read_blocks(file, &mut words) {
        Ok(count) => print_rule(rt, &words[..count]),
        Err(refusal) => println!(rt; "{refusal}"),
    }
}

// The same for the words of a rule.
fn print_rule(rt: &impl Print, words: &[u32]) -> io::Result<()> {
    let mut work = [0u32; WORDS];
    let mut result = [0u32; WORDS];
    print_pruned(rt, words, &mut work, &mut result, b"", b"\n")
}

// Prunes the words and prints `words N foldable F`, the text `behind`, and the pruned words, each after the text
// `before`, or else `refused N at P`.
pub fn print_pruned(
    rt: &impl Print,
    words: &[u32],
    work: &mut [u32],
    res: &mut [u32],
    behind: &[u8],
    before: &[u8],
) -> io::Result<()> {
    match prune(words, work, res) {
        Ok(counts) => print_given(rt, &res[..counts.size], counts.foldable, behind, before),
        Err(refusal) => println!(rt; "{refusal}"),
    }
}

// Prints the counts, the text, and the pruned words.
fn print_given(
    rt: &impl Print,
    words: &[u32],
    foldable: usize,
    behind: &[u8],
    before: &[u8],
) -> io::Result<()> {
    print_counts(rt, words.len(), foldable)?;
    rt.write_all(behind)?;
    print_words(rt, words, before)?;
    println!(rt; "")
}

// Prunes the words and prints `words N foldable F` alone, or `refused N at P`. No function of both: it would take the
// printing as a closure, and each is one match.
pub fn print_size(
    rt: &impl Print,
    words: &[u32],
    work: &mut [u32],
    res: &mut [u32],
) -> io::Result<()> {
    match prune(words, work, res) {
        Ok(counts) => {
            print_counts(rt, counts.size, counts.foldable)?;
            println!(rt; "")
        }
        Err(refusal) => println!(rt; "{refusal}"),
    }
}

fn print_counts(rt: &impl Print, size: usize, foldable: usize) -> io::Result<()> {
    print!(rt; "words {size} foldable {foldable}")
}

// Prints each word after the text, both with one call where the text is UTF-8, as each call is a write.
fn print_words(rt: &impl Print, words: &[u32], before: &[u8]) -> io::Result<()> {
    if let Ok(text) = str::from_utf8(before) {
        for word in words {
            print!(rt; "{text}{word}")?;
        }
        return Ok(());
    }
    for word in words {
        rt.write_all(before)?;
        print!(rt; "{word}")?;
    }
    Ok(())
}
