// Runs a list of cases through pruning, and prints `words N foldable F :` and the pruned words, or `refused N at P`, on
// a line; and through what `cardtidy` prints for a file, which has a line for each word.
//
// The list is decimal numbers on standard input, white space between them. A case is one of
//
//     1 WORK ROOM COUNT word ..                     prunes the words, with WORK work words and ROOM result words
//     2 WORK ROOM AT TIMES COUNT word ..            the same for the words with word AT, counted from 0, standing TIMES
//                                                   times: for deep nests and wide lists
//     3 LENGTH word ..                              what `cardtidy` prints for a file of LENGTH bytes, given as
//                                                   little-endian words
//     4 LENGTH PLACE VALUE AT TIMES COUNT word ..   the same for the first LENGTH bytes of the file of the words, with
//                                                   word AT standing TIMES times, zeros behind the file, and byte PLACE
//                                                   set to VALUE
//
// Byte PLACE is set only where there is one. A list that is not so, or that asks for more than is lent, stops at its
// first wrong case, with a line that says where.
#![tactic(auto)]

ghost use Rattle.std.specs.Prelude.{◌≤◌};

use case_list::{Cases, NoForm, Repeat, Stop, number_at};
use std::io;
use std::io::Print;

// A program has no heap: what is lent stands on the stack: the most words of a rule, the most work words, enough for a
// rule of 16,128 words, the most result words and the most bytes.
const WORDS: usize = 16640;

const WORK: usize = 258112;

const RESULT: usize = 27648;

const BYTES: usize = 66560;

// What is pruned: the words of a case or these with one repeated, a file or one that is made of words.
#[derive(Clone, Copy)]
enum Form {
    Words,
    Repeated,
    File,
    Made,
}

// The one place with the numbers of the forms: a list is decimal numbers.
impl TryFrom<u32> for Form {
    type Error = NoForm;

    fn try_from(number: u32) -> Result<Form, NoForm> {
        match number {
            1 => Ok(Form::Words),
            2 => Ok(Form::Repeated),
            3 => Ok(Form::File),
            4 => Ok(Form::Made),
            _ => Err(NoForm(number)),
        }
    }
}

impl Form {
    // How many numbers of a case stand before its words; the last of them says how many words there are, or bytes.
    fn head(self) -> usize
        ensures within { 1 ≤ result }
        ensures small { result ≤ 7 }
    {
        match self {
            Form::Words => 4,
            Form::Repeated => 6,
            Form::File => 2,
            Form::Made => 7,
        }
    }
}

#[derive(Clone, Copy)]
struct PruneCases;

impl Cases for PruneCases {
    // A form that there is not has its number alone, and `run` turns it back.
    fn size(&self, numbers: &[u32]) -> usize {
        match Form::try_from(number_at(numbers, 0)) {
            Ok(form) => form.head() + words_in(form, number_at(numbers, form.head() - 1)) as usize,
            Err(_) => 1,
        }
    }

    fn run<P: Print>(&mut self, rt: &P, case: &[u32]) -> Result<(), Stop> {
        let form = Form::try_from(number_at(case, 0))?;
        let words = case_list::behind(case, form.head());
        let first = number_at(case, 1) as usize;
        let second = number_at(case, 2) as usize;
        match form {
            Form::Words => run_words(rt, first, second, words),
            Form::Repeated => run_repeated(rt, first, second, case, words),
            Form::File => run_file(rt, first, words),
            Form::Made => run_made(rt, first, second, case, words),
        }
    }
}

// How many words a case has: a file's length is told in bytes.
fn words_in(form: Form, size: u32) -> u32 {
    match form {
        Form::File => size.div_ceil(4),
        _ => size,
    }
}

// Reads the list and runs it.
fn main(rt: HostRuntime) -> io::Result<()> {
    let mut numbers = [0u32; case_list::NUMBERS];
    case_list::run_list(&rt, &mut PruneCases, &mut numbers)
}

// Prunes the words, with so many work words and result words.
fn run_words(rt: &impl Print, work: usize, room: usize, words: &[u32]) -> Result<(), Stop> {
    if WORK < work || RESULT < room {
        return Err(Stop::TooMuch);
    }
    let mut lent = [0u32; WORK];
    let mut result = [0u32; RESULT];
    tidy::print_pruned(
        rt,
        words,
        &mut lent[..work],
        &mut result[..room],
        b" :",
        b" ",
    )?;
    Ok(())
}

// The same for the words of a case, one of them repeated.
fn run_repeated(
    rt: &impl Print,
    work: usize,
    room: usize,
    case: &[u32],
    words: &[u32],
) -> Result<(), Stop> {
    let mut space = [0u32; WORDS];
    let size = case_list::put_repeated(words, Repeat::told(case, 3), &mut space)?;
    run_words(rt, work, room, &space[..size])
}

// What `cardtidy` prints for a file of so many bytes, given as words.
fn run_file(rt: &impl Print, size: usize, words: &[u32]) -> Result<(), Stop> {
    if BYTES < size {
        return Err(Stop::TooMuch);
    }
    let mut file = [0u8; BYTES];
    case_list::unpack_bytes(words, &mut file[..size]);
    tidy::print_tidied(rt, &file[..size])?;
    Ok(())
}

// The same for the file that is made of the words of a case, one of them repeated, or why there is none.
fn run_made(
    rt: &impl Print,
    size: usize,
    place: usize,
    case: &[u32],
    words: &[u32],
) -> Result<(), Stop> {
    let value = case_list::byte_in(number_at(case, 3))?;
    if BYTES < size {
        return Err(Stop::TooMuch);
    }
    let mut space = [0u32; WORDS];
    let count = case_list::put_repeated(words, Repeat::told(case, 4), &mut space)?;
    let mut file = [0u8; BYTES];
    if let Err(refusal) = blocks::write_blocks(&space[..count], &mut file) {
        println!(rt; "{refusal}")?;
        return Ok(());
    }
    case_list::set_byte(&mut file, place, value);
    tidy::print_tidied(rt, &file[..size])?;
    Ok(())
}
