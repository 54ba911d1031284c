// Packs a rule: reads its words as decimal numbers from standard input, and writes the block file to standard output,
// or the line that says why there is none.
#![tactic(auto)]

use std::io;
use std::io::Print;

// The bytes of a file of 128 blocks. A program has no heap: file and words stand on the stack, the most of each.
const BYTES: usize = 65536;

// Reads the words and packs them, if each is a number.
fn main(rt: HostRuntime) -> io::Result<()> {
    // One word more than a rule may have, so that a rule that is too long is turned back.
    let mut words = [0u32; 16129];
    let mut input = rt.stdin();
    match console::read_words(&mut input, &mut words) {
        Ok(count) => pack(&rt, &rt.stderr(), &words[..count]),
        Err(fault) => complain(&rt.stderr(), fault.before + 1),
    }
}

// Says on standard error which word is no number, counted from 1, and what is wanted.
fn complain(stderr: &impl Print, word: usize) -> io::Result<()> {
    println!(stderr;
        "cardpack: word {word} is no number: wanted are decimal numbers below 4294967296, spaces between them"
    )
}

// Writes the block file of the words, which has at most 128 blocks of 512 bytes.
fn pack(rt: &impl Print, stderr: &impl Print, words: &[u32]) -> io::Result<()> {
    let mut file = [0; BYTES];
    match blocks::write_blocks(words, &mut file) {
        Ok(size) => write_file(rt, stderr, &file[..size]),
        Err(refusal) => println!(rt; "{refusal}"),
    }
}

// Writes the file to standard output, or says on standard error that it could not.
fn write_file(rt: &impl Print, stderr: &impl Print, file: &[u8]) -> io::Result<()> {
    match rt.write_all(file) {
        Ok(_) => Ok(()),
        Err(_) => println!(stderr; "cardpack: not all of the file could be written"),
    }
}
