// Input for programs: words, or bytes, read from a reader.
#![tactic(auto)]

ghost use Rattle.std.specs.Prelude.{◌≤◌, length, MatchResult};

use decimal::{Mark, Taken};
use std::io::Read;

// How many bytes are read at a time. There is no heap: they stand on the stack.
const PIECE: usize = 65536;

// A token is no number below 2^32. So many numbers stand before it. No `Display`: `cardpack` and `case_list` each have
// words of their own for it.
#[derive(Clone, Copy, Debug)]
pub struct NoNumber {
    pub before: usize,
}

// Reads decimal words, white space between them, until the input ends or `words` is full, and answers how many stand at
// its start then. Where a read fails, the input counts as ended.
pub fn read_words(input: &mut impl Read, words: &mut [u32]) -> Result<usize, NoNumber>
    ensures { MatchResult result (λ count. count ≤ length words.new) (λ fault. fault.before ≤ length words.new) }
{
    let mut buffer = [0; PIECE];
    let taken = read_pieces(input, &mut buffer, words);
    match taken.mark {
        Mark::Bad => Err(NoNumber {
            before: taken.count,
        }),
        _ => Ok(taken.count),
    }
}

// The same, a buffer at a time. A proved loop has to end, and nothing says that the input does: no run uses up so many
// turns. Reader and buffer are two borrows, as `Read::read` has them: a struct would be made anew for each call.
fn read_pieces(input: &mut impl Read, buffer: &mut [u8], words: &mut [u32]) -> Taken
    ensures { result.count ≤ length words.new }
{
    let mut taken = Taken {
        mark: Mark::Between,
        count: 0,
    };
    for _ in 0..u64::MAX {
        if matches!(taken.mark, Mark::Bad) || taken.count == words.len() {
            return taken;
        }
        let bytes = read_full(input, buffer);
        if bytes == 0 {
            return end_token(taken, words);
        }
        taken = taken.take_words(&buffer[..bytes], words);
    }
    taken
}

// Reads until the buffer is full, the input ends or a read fails, and answers how many bytes stand at its start then.
pub fn read_full(input: &mut impl Read, buffer: &mut [u8]) -> usize
    ensures { result ≤ length buffer.new }
{
    let mut done = 0;
    while done < buffer.len() {
        let bytes = read_some(input, &mut buffer[done..]);
        if bytes == 0 {
            return done;
        }
        done += bytes;
    }
    done
}

// Reads once, and answers how many bytes were read: none where the input has ended or the read fails.
fn read_some(input: &mut impl Read, buffer: &mut [u8]) -> usize
    ensures { result ≤ length buffer.new }
{
    input.read(buffer).unwrap_or(0)
}

// Ends the last token, as white space would.
fn end_token(taken: Taken, words: &mut [u32]) -> Taken
    requires { taken.count ≤ length words.old }
    ensures { result.count ≤ length words.new }
{
    taken.take_words(b" ", words)
}
