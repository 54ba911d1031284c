// Runs a list of cases through the block reader, the block writer and the step for a last block, and prints a line for
// each: the answer and, where a result was lent, a sum over every element of it. The sum shows that a refusal alters
// nothing, and that the space past an answer stays as it was.
//
// The list is decimal numbers on standard input, white space between them. A case is one of
//
//     1 ROOM LENGTH word ..              read a file of LENGTH bytes, given as little-endian words, into ROOM words
//     2 ROOM COUNT word ..               write COUNT words into ROOM bytes
//     3 ROOM COUNT SEED LENGTH AT VALUE  write COUNT words that are made of SEED, set byte AT of the file to VALUE, and
//                                        read the first LENGTH bytes into ROOM words
//     4 NUMBER COUNT word ..             hand over COUNT words as those of a last block with this number, one by one
//
// Byte AT is set only where the file has one. A list that is not so, or that asks for more than is lent, stops at its
// first wrong case, with a line that says where.
#![tactic(auto)]

ghost use Rattle.std.specs.Prelude.{◌≤◌};

use case_list::{Cases, NoForm, Stop, number_at};
use last_block::LastBlock;
use refusal::Refusal;
use std::io;
use std::io::Print;

// A program has no heap: the bytes and the words that are lent stand on the stack, the most of each.
const BYTES: usize = 66560;

const WORDS: usize = 16640;

// The numbers of a case before its words, of each form.
const HEAD: usize = 3;

// What is asked of the file or of the words.
#[derive(Clone, Copy, Debug, PartialEq, Eq)]
enum Form {
    Read,
    Write,
    Made,
    Last,
}

// The one place with the numbers of the forms: a list is decimal numbers.
impl TryFrom<u32> for Form {
    type Error = NoForm;

    fn try_from(number: u32) -> Result<Form, NoForm> {
        match number {
            1 => Ok(Form::Read),
            2 => Ok(Form::Write),
            3 => Ok(Form::Made),
            4 => Ok(Form::Last),
            _ => Err(NoForm(number)),
        }
    }
}

impl Form {
    // How many numbers follow the third one of a case, which says the size.
    fn behind(self, size: u32) -> u32 {
        match self {
            Form::Read => size.div_ceil(4),
            Form::Write | Form::Last => size,
            Form::Made => 4,
        }
    }
}

#[derive(Clone, Copy)]
struct BlockCases;

impl Cases for BlockCases {
    // A form that there is not has no numbers behind, and `run` turns it back.
    fn size(&self, numbers: &[u32]) -> usize {
        match Form::try_from(number_at(numbers, 0)) {
            Ok(form) => HEAD + form.behind(number_at(numbers, 2)) as usize,
            Err(_) => HEAD,
        }
    }

    fn run<P: Print>(&mut self, rt: &P, case: &[u32]) -> Result<(), Stop> {
        let form = Form::try_from(number_at(case, 0))?;
        let room = number_at(case, 1) as usize;
        let words = case_list::behind(case, HEAD);
        match form {
            Form::Read => run_read(rt, room, number_at(case, 2) as usize, words),
            Form::Write => run_write(rt, room, words),
            Form::Made => run_made(rt, room, case),
            Form::Last => run_last(rt, number_at(case, 1), words),
        }
    }
}

// Reads the list and runs it.
fn main(rt: HostRuntime) -> io::Result<()> {
    let mut numbers = [0u32; case_list::NUMBERS];
    case_list::run_list(&rt, &mut BlockCases, &mut numbers)
}

// Reads a file of `size` bytes, given as words, into `room` words.
fn run_read(rt: &impl Print, room: usize, size: usize, words: &[u32]) -> Result<(), Stop> {
    if WORDS < room || BYTES < size {
        return Err(Stop::TooMuch);
    }
    let mut file = [0u8; BYTES];
    case_list::unpack_bytes(words, &mut file[..size]);
    read_part(rt, &file[..size], room)?;
    Ok(())
}

// Writes words into `room` bytes.
fn run_write(rt: &impl Print, room: usize, words: &[u32]) -> Result<(), Stop> {
    if BYTES < room || WORDS < words.len() {
        return Err(Stop::TooMuch);
    }
    let mut space = [0u8; BYTES];
    write_into(rt, words, &mut space[..room])?;
    Ok(())
}

// Writes words that are made into a file of zeros, changes a byte of the file, and reads it. Where writing is turned
// back, nothing is read.
fn run_made(rt: &impl Print, room: usize, case: &[u32]) -> Result<(), Stop> {
    let count = number_at(case, 2) as usize;
    let seed = number_at(case, 3);
    let size = number_at(case, 4) as usize;
    let at = number_at(case, 5) as usize;
    let value = case_list::byte_in(number_at(case, 6))?;
    if WORDS < room || WORDS < count || BYTES < size {
        return Err(Stop::TooMuch);
    }
    let mut words = [0u32; WORDS];
    make_words(seed, &mut words);
    let mut file = [0u8; BYTES];
    let written = blocks::write_blocks(&words[..count], &mut file);
    if written.is_err() {
        print_answer(rt, "bytes", written, &file)?;
        return Ok(());
    }
    case_list::set_byte(&mut file, at, value);
    read_part(rt, &file[..size], room)?;
    Ok(())
}

// Hands words over as those of a last block, and prints the line of its answer.
fn run_last(rt: &impl Print, number: u32, words: &[u32]) -> Result<(), Stop> {
    let number = u16::try_from(number).map_err(|_| Stop::TooMuch)?;
    let mut state = LastBlock::new(number);
    for word in words {
        state = state.step(*word);
    }
    match state.answer() {
        None => println!(rt; "nothing")?,
        Some(Ok(count)) => println!(rt; "count {count}")?,
        Some(Err(refusal)) => println!(rt; "{refusal}")?,
    }
    Ok(())
}

// Reads a file into `room` words.
fn read_part(rt: &impl Print, file: &[u8], room: usize) -> io::Result<()>
    requires { room ≤ 16640 }
{
    let mut space = [0u32; WORDS];
    read_into(rt, file, &mut space[..room])
}

// Reads a file into the result, and prints its line. `write_into` is alike: one function of both would be handed the
// call as a closure, and be longer than either.
fn read_into(rt: &impl Print, file: &[u8], res: &mut [u32]) -> io::Result<()> {
    fill(res);
    let answer = blocks::read_blocks(file, res);
    print_answer(rt, "words", answer, res)
}

// Writes words into the result, and prints its line.
fn write_into(rt: &impl Print, words: &[u32], res: &mut [u8]) -> io::Result<()> {
    fill(res);
    let answer = blocks::write_blocks(words, res);
    print_answer(rt, "bytes", answer, res)
}

// Prints the line of an answer: what is counted and how many, or the refusal, and the sum over the result.
fn print_answer<T: Copy + Into<u32>>(
    rt: &impl Print,
    counted: &str,
    answer: Result<usize, Refusal>,
    res: &[T],
) -> io::Result<()> {
    let sum = sum_of(res);
    match answer {
        Ok(count) => println!(rt; "{counted} {count} sum {sum}"),
        Err(refusal) => println!(rt; "{refusal} sum {sum}"),
    }
}

// What a lent element holds before the call: (7 × k + 13) % 251.
fn pattern(k: usize) -> u8 {
    ((k % 251 * 7 + 13) % 251) as u8
}

// Fills a result with the pattern.
fn fill<T: Copy + From<u8>>(res: &mut [T]) {
    for (k, element) in res.iter_mut().enumerate() {
        *element = T::from(pattern(k));
    }
}

// The sum over all elements, in order: it starts at 1, and with each element becomes (31 × sum + element) % 2^32.
fn sum_of<T: Copy + Into<u32>>(res: &[T]) -> u32 {
    let mut sum: u32 = 1;
    for element in res {
        sum = sum.wrapping_mul(31).wrapping_add((*element).into());
    }
    sum
}

// Word i is made of the seed by (seed × (i + 1) % 2^32 × 2654435761) % 2^32.
fn make_words(seed: u32, words: &mut [u32]) {
    let mut times: u32 = 0;
    for word in words {
        times = times.wrapping_add(seed);
        *word = times.wrapping_mul(2654435761);
    }
}
