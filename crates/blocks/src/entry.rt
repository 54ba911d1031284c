// The entry points. Neither has a `requires`: any file, any words and any room get an answer.
ghost use Rattle.std.specs.Prelude.{◌≡◌, length};
ghost use Rattle.spec.specs.Blocks.{length_right, read_blocks, write_blocks};
ghost use Rattle.blocks.specs.Answers.{Met};

use crate::load::load;
use crate::store::write_block;
use block_check::BlockFile;
use refusal::{Refusal, count_right};

fn length_right(bytes: usize) -> bool
    ensures { result ≡ length_right bytes }
{
    (1..=65536).contains(&bytes) && bytes % 512 == 0
}

// Reads a file of blocks: its rule words go to the start of the result, and how many they are is the answer. Refusals 1
// to 4 and 11. That writing them gives the file again is `write_of_read` of spec's proofs/RoundTrip.antt.
pub fn read_blocks(file: &[u8], res: &mut [u32]) -> Result<usize, Refusal>
    ensures { Met (read_blocks file.now (length res.old)) res.old result
        res.new }
{
    let bytes = file.len();
    if !length_right(bytes) {
        return Err(Refusal::FileLength(bytes));
    }
    let blocks = BlockFile { bytes: file };
    let used = blocks.check()?;
    load(&blocks, used, res)
}

// Writes rule words as a file of blocks into the start of the result, and answers how many bytes they take. Refusals 5
// and 11. That reading the file gives the words again is `read_of_write` of spec's proofs/RoundTrip.antt.
#[tactic(auto, using(crate::proofs::Writing::no_blocks))]
pub fn write_blocks(words: &[u32], res: &mut [u8]) -> Result<usize, Refusal>
    ensures { Met (write_blocks words.now (length res.old)) res.old result
        res.new }
{
    let n = words.len();
    if !count_right(n) {
        return Err(Refusal::WordCount(n));
    }
    let count = n.div_ceil(126);
    let size = 512 * count;
    if res.len() < size {
        return Err(Refusal::ShortResult(size));
    }
    // By the block's number, which cuts both: what a slice ends as that has lent its chunks, std does not say, so with
    // `as_chunks_mut` the proof does not close.
    for number in 0..count {
        let from = 126 * number;
        let rule = &words[from..n.min(from + 126)];
        let at = 512 * number;
        write_block(number, rule, &mut res[at..at + 512]);
    }
    Ok(size)
}
