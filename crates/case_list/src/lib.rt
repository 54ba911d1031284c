// What the programs over lists of cases share: running the list, the lines that say why it stopped, and words and files
// that a case gives by few numbers.
#![tactic(auto)]

ghost use Rattle.std.specs.Prelude.{◌≡◌, ◌+◌, ◌≤◌, ◌<◌, ⊤, length, drop, slice_index, slice_set};
ghost use Rattle.std.specs.Prelude.{MatchOption, MatchResult, OnErr};
ghost use Rattle.case_list.specs.declared.Stop.TheVariants as stop;

use std::io::{Input, Print};
use std::{fmt, io};

// One more than the most numbers that a list may have. A program has no heap: they stand on its stack.
pub const NUMBERS: usize = 262144;

// A number that is no form of a case, as the error of a `TryFrom`. No `Display`: a list says `Fault::NotRun` of it.
#[derive(Clone, Copy, Debug)]
pub struct NoForm(pub u32);

// Why a case was not run, or not to its end. No `Display`: a list stops alike at the first two, with the line of a
// `Stopped`, and has no line for the last.
#[derive(Debug, Drop)]
pub enum Stop {
    // it has no such form
    NoForm(NoForm),
    // it asks for more than is lent
    TooMuch,
    // its lines could not be written
    Output(io::Error),
}

impl From<NoForm> for Stop {
    fn from(form: NoForm) -> Stop
        ensures { result ≡ stop.NoForm form }
    {
        Stop::NoForm(form)
    }
}

impl From<io::Error> for Stop {
    fn from(error: io::Error) -> Stop
        ensures { result ≡ stop.Output error }
    {
        Stop::Output(error)
    }
}

// What is wrong with a list.
#[derive(Clone, Copy, Debug)]
enum Fault {
    NoNumber,
    TooLong,
    CutShort,
    NotRun,
}

impl fmt::Display for Fault {
    fn fmt<W: fmt::Write>(&self, f: &mut fmt::Formatter<W>) -> fmt::Result {
        f.write_str(match self {
            Fault::NoNumber => "no number below 4294967296 follows",
            Fault::TooLong => "the list is too long",
            Fault::CutShort => "a case is cut short",
            Fault::NotRun => "a case has no such form, or asks for too much",
        })
    }
}

// How many numbers of a list stand before a fault, and the fault.
#[derive(Clone, Copy, Debug)]
struct Stopped {
    before: usize,
    fault: Fault,
}

impl fmt::Display for Stopped {
    fn fmt<W: fmt::Write>(&self, f: &mut fmt::Formatter<W>) -> fmt::Result {
        write!(f, "stopped after {} numbers: {}", self.before, self.fault)
    }
}

// The cases of a list.
pub trait Cases {
    // How many numbers the first case of these has, as far as the numbers tell it; more than there are where it is cut
    // short.
    fn size(&self, numbers: &[u32]) -> usize
        ensures { 1 ≤ result };

    // Runs a case that is there whole, and prints its lines. Where it asks for what there is not, it prints nothing.
    fn run<P: Print>(&mut self, rt: &P, case: &[u32]) -> Result<(), Stop>;
}

// Reads the list into the numbers and runs it: decimal numbers on standard input, white space between them, one case
// after the other. It stops, with a line that says why, where a token is no number below 2^32, where the numbers fill
// the space, so that some may be left, and at the first case that is cut short or cannot be run. Where the line cannot
// be written, it ends with that error, but for what is wrong with the list as a whole: that line is let go.
pub fn run_list<C: Cases>(
    rt: &(impl Input + Print),
    cases: &mut C,
    numbers: &mut [u32],
) -> io::Result<()> {
    match read_numbers(rt, numbers) {
        Ok(count) => run_cases(rt, cases, &numbers[..count]),
        Err(stopped) => {
            println!(rt; "{stopped}").unwrap_or(());
            Ok(())
        }
    }
}

// Reads the list into the numbers, and answers how many there are. A token that is no number below 2^32 is a fault, and
// so are numbers that fill the space.
fn read_numbers(rt: &impl Input, numbers: &mut [u32]) -> Result<usize, Stopped>
    ensures { MatchResult result (λ count. count < length numbers.new) (λ _. ⊤) }
{
    let mut input = rt.reader();
    let (before, fault) = match console::read_words(&mut input, numbers) {
        Ok(count) if count < numbers.len() => return Ok(count),
        Ok(count) => (count, Fault::TooLong),
        Err(none) => (none.before, Fault::NoNumber),
    };
    Err(Stopped { before, fault })
}

// Runs one case after the other.
fn run_cases<C: Cases>(rt: &impl Print, cases: &mut C, numbers: &[u32]) -> io::Result<()> {
    let mut at = 0;
    while at < numbers.len() {
        let size = cases.size(&numbers[at..]);
        if numbers.len() - at < size {
            return say_stopped(rt, at, Fault::CutShort);
        }
        match cases.run(rt, &numbers[at..at + size]) {
            Ok(()) => {}
            Err(Stop::Output(error)) => return Err(error),
            Err(_) => return say_stopped(rt, at, Fault::NotRun),
        }
        at += size;
    }
    Ok(())
}

fn say_stopped(rt: &impl Print, before: usize, fault: Fault) -> io::Result<()> {
    println!(rt; "{}", Stopped { before, fault })
}

// The number at a place, 0 past the last one.
// No Option: a call that may read past the last one goes on with the 0, as `size` does where a case is cut short.
// `ir` has the like: no crate that holds functions lies below both.
pub fn number_at(numbers: &[u32], at: usize) -> u32
    ensures { result ≡ slice_index numbers.now at }
{
    numbers.get(at).copied().unwrap_or(0)
}

// The numbers from a place on.
pub fn behind(numbers: &[u32], at: usize) -> &[u32]
    ensures { result.now ≡ drop at numbers.now }
{
    &numbers[at.min(numbers.len())..]
}

// A number as a byte.
pub fn byte_in(number: u32) -> Result<u8, Stop>
    ensures { MatchResult result (λ byte. byte ≡ number) (λ _. 255 < number) }
{
    u8::try_from(number).map_err(|_| Stop::TooMuch)
}

// Word `at` of some words, counted from 0, standing `times` times.
#[derive(Clone, Copy)]
pub struct Repeat {
    pub at: usize,
    pub times: usize,
}

impl Repeat {
    // The one that a case tells: `at` by the number at a place, `times` by the next.
    pub fn told(case: &[u32], place: usize) -> Repeat
        ensures at { result.at ≡ slice_index (drop place case.now) 0 }
        ensures times { result.times ≡ slice_index (drop place case.now) 1 }
    {
        let told = behind(case, place);
        Repeat {
            at: number_at(told, 0) as usize,
            times: number_at(told, 1) as usize,
        }
    }

    // How many words there are then, if there is such a word and they are no more than the room.
    fn size(self, words: &[u32], room: usize) -> Option<usize>
        ensures { MatchOption result ⊤ (λ size.
            (self.at < length words.now) × (size ≤ room) × (size + 1 ≡ length words.now + self.times)) }
    {
        let size = words.len().checked_sub(1)?.checked_add(self.times)?;
        if words.len() <= self.at || room < size {
            return None;
        }
        Some(size)
    }
}

// Puts the words into the space, one of them repeated, and zeros behind them, and answers how many there are then.
// Where there is no such word, or no space for them, nothing is put.
pub fn put_repeated(words: &[u32], repeat: Repeat, space: &mut [u32]) -> Result<usize, Stop>
    ensures size { MatchResult result
        (λ size. (size ≤ length space.new) × (size + 1 ≡ length words.now + repeat.times)) (λ _. ⊤) }
    ensures unchanged { OnErr result (space.new ≡ space.old) }
{
    let size = repeat.size(words, space.len()).ok_or(Stop::TooMuch)?;
    let at = repeat.at;
    let behind = at + repeat.times;
    space[..at].copy_from_slice(&words[..at]);
    space[at..behind].fill(words[at]);
    space[behind..size].copy_from_slice(&words[at + 1..]);
    space[size..].fill(0);
    Ok(size)
}

// Fills the file with the bytes of the words, the lowest of each first, and with zeros behind them.
pub fn unpack_bytes(words: &[u32], file: &mut [u8]) {
    file.fill(0);
    for (bytes, word) in file.chunks_mut(4).zip(words) {
        for (byte, value) in bytes.iter_mut().zip(word.to_le_bytes()) {
            *byte = value;
        }
    }
}

// Sets a byte, if it lies in the file. With `get_mut` the check does not find the proof of what is left.
pub fn set_byte(file: &mut [u8], at: usize, value: u8)
    ensures inside { at < length file.old → file.new ≡ slice_set file.old at value }
    ensures outside { length file.old ≤ at → file.new ≡ file.old }
{
    if at < file.len() {
        file[at] = value;
    }
}

#[cfg(test)]
mod tests {
    use super::*;
    use std::alloc::Allocator;
    use std::fmt::Display;
    use std::io::{BufRead, ErrorKind, Lines};

    // It reads this text, and cannot write.
    #[derive(Clone, Copy)]
    struct Closed {
        text: &'static [u8],
    }

    impl Input for Closed {
        type Reader = &'static [u8];

        fn read_line<A: Allocator + Clone>(&self, buf: &mut String<A>) -> io::Result<usize> {
            let mut text = self.text;
            text.read_line(buf)
        }

        fn lines<A: Allocator>(&self, alloc: A) -> Lines<&'static [u8], A> {
            self.text.lines(alloc)
        }

        fn reader(&self) -> &'static [u8] {
            self.text
        }
    }

    impl Print for Closed {
        fn print<D: Display + Drop>(&self, _value: D) -> io::Result<()> {
            Err(io::Error::from(ErrorKind::BrokenPipe))
        }

        fn println<D: Display + Drop>(&self, _value: D) -> io::Result<()> {
            Err(io::Error::from(ErrorKind::BrokenPipe))
        }

        fn write_all(&self, _bytes: &[u8]) -> io::Result<()> {
            Err(io::Error::from(ErrorKind::BrokenPipe))
        }
    }

    // A case is two numbers, the first of which is 1.
    #[derive(Clone, Copy)]
    struct Pairs;

    impl Cases for Pairs {
        fn size(&self, _numbers: &[u32]) -> usize {
            2
        }

        fn run<P: Print>(&mut self, _rt: &P, case: &[u32]) -> Result<(), Stop> {
            let form = number_at(case, 0);
            if form == 1 {
                Ok(())
            } else {
                Err(Stop::from(NoForm(form)))
            }
        }
    }

    // Where no line can be written, a list that is none ends well, and a case that is none with the error.
    #[test]
    fn lets_a_line_go(rt: HostRuntime) {
        let lists: [(&'static [u8], bool); 5] = [
            (b"1 2", true),
            (b"1 x", true),
            (b"1 2 1 2", true),
            (b"1 2 1", false),
            (b"3 2", false),
        ];
        for (i, (text, goes)) in lists.into_iter().enumerate() {
            let mut numbers = [0u32; 4];
            let ended = run_list(&Closed { text }, &mut Pairs, &mut numbers);
            assert_eq!(rt; ended.is_ok(), goes, "at list {i}");
        }
    }
}
