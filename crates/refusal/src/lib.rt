// The refusals of document 01, 'Turned back', and of document 02, as the errors of the entry points.
#![tactic(auto)]

ghost use Rattle.std.specs.Prelude.{◌≡◌};
ghost use Rattle.spec.specs.Blocks.{count_right};
ghost use Rattle.refusal.specs.Numbers.{number_of, place_of};

use std::error::Error;
use std::fmt;

// What is wrong, each with its place, in the order of the numbers: from 1 for `FileLength` to 11 for `ShortResult`, and
// 19 for `NodeCount`.
#[derive(Clone, Copy, Debug, PartialEq, Eq)]
pub enum Refusal {
    // the file is empty, over 65,536 bytes or no multiple of 512; its length
    FileLength(usize),
    // a block's number or its count of words is wrong; the byte where it begins
    BlockHead(usize),
    // a block's sum is wrong; the byte where it begins
    BlockSum(usize),
    // a word behind the last rule word is not zero; the byte where its block begins
    UnusedWord(usize),
    // there are no words, or over 16,128; how many
    WordCount(usize),
    // there are too few work words; how many are needed
    ShortWork(usize),
    // a node is deeper than 200; its word
    TooDeep(usize),
    // words end early; the word that is missing
    EndsEarly(usize),
    // a kind, a detail or a payload is wrong; its word
    WrongWord(usize),
    // words remain; the first of them
    WordsRemain(usize),
    // the result is too short; the size that is needed
    ShortResult(usize),
    // expressions of no node, or of over 20, are not counted; how many nodes
    NodeCount(usize),
}

impl Refusal {
    // The number that the papers give it: document 01 those up to 11, document 02 those above.
    pub fn number(self) -> u32
        ensures { result ≡ number_of self }
    {
        match self {
            Refusal::FileLength(_) => 1,
            Refusal::BlockHead(_) => 2,
            Refusal::BlockSum(_) => 3,
            Refusal::UnusedWord(_) => 4,
            Refusal::WordCount(_) => 5,
            Refusal::ShortWork(_) => 6,
            Refusal::TooDeep(_) => 7,
            Refusal::EndsEarly(_) => 8,
            Refusal::WrongWord(_) => 9,
            Refusal::WordsRemain(_) => 10,
            Refusal::ShortResult(_) => 11,
            Refusal::NodeCount(_) => 19,
        }
    }

    // Its place: a byte, a word, a length or a size.
    pub fn place(self) -> usize
        ensures { result ≡ place_of self }
    {
        match self {
            Refusal::FileLength(place)
            | Refusal::BlockHead(place)
            | Refusal::BlockSum(place)
            | Refusal::UnusedWord(place)
            | Refusal::WordCount(place)
            | Refusal::ShortWork(place)
            | Refusal::TooDeep(place)
            | Refusal::EndsEarly(place)
            | Refusal::WrongWord(place)
            | Refusal::WordsRemain(place)
            | Refusal::ShortResult(place)
            | Refusal::NodeCount(place) => place,
        }
    }
}

impl fmt::Display for Refusal {
    fn fmt<W: fmt::Write>(&self, f: &mut fmt::Formatter<W>) -> fmt::Result {
        write!(f, "refused {} at {}", self.number(), self.place())
    }
}

impl Error for Refusal {}

// Whether a rule or an expression may have so many words: else it is `WordCount`.
pub fn count_right(words: usize) -> bool
    ensures { result ≡ count_right words }
{
    (1..=16128).contains(&words)
}
