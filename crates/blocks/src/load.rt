// The rule words of a file that is not refused by 1 to 4.
// File and result stay two parameters, as in the entry points: one is read and the other written.
ghost use Rattle.std.specs.Prelude.{◌≡◌, ◌-◌, ◌/◌, ◌≤◌, length, take, drop};
ghost use Rattle.spec.specs.Outcome.{given, fitted};
ghost use Rattle.spec.specs.Blocks.{rule_words, words_of, counted, last_reached, judged_all};
ghost use Rattle.block_words.specs.Placed.{placed};
ghost use Rattle.blocks.specs.Answers.{Met};

use block_check::BlockFile;
use block_words::word_at;
use refusal::Refusal;

// Copies rule words of one block, from its first one on, as many as there is room for.
fn unpack_block(block: &[u8; 512], res: &mut [u32])
    requires { length res.old ≤ 126 }
    ensures { res.new ≡ take (length res.old) (drop 1 (words_of block.now)) }
{
    for (i, word) in res.iter_mut().enumerate() {
        *word = word_at(block, 1 + i);
    }
}

// Copies the n rule words of all blocks; every block but the last is full. The count stands beside the result, since
// the promise is about all of the result: what lies behind the rule words stays.
fn unpack(file: &BlockFile<'_>, n: usize, res: &mut [u32])
    requires judged { judged_all (length file.now.bytes.now / 512) 0 (words_of file.now.bytes.now) ≡ given tt }
    requires size { length (rule_words (length file.now.bytes.now / 512) (words_of file.now.bytes.now)) ≡ n }
    requires room { n ≤ length res.old }
    ensures { res.new
        ≡ placed res.old 0 (rule_words (length file.now.bytes.now / 512) (words_of file.now.bytes.now)) }
{
    for (number, block) in file.blocks().iter().enumerate() {
        let from = 126 * number;
        unpack_block(block, &mut res[from..n.min(from + 126)]);
    }
}

// Refusal 11, or the rule words in the result: those of the blocks before the last, and `used` of the last.
pub(crate) fn load(file: &BlockFile<'_>, used: usize, res: &mut [u32]) -> Result<usize, Refusal>
    requires { last_reached (length file.now.bytes.now / 512 - 1) (words_of file.now.bytes.now) ≡ given (counted used) }
    ensures { Met (fitted (length res.old)
        (rule_words (length file.now.bytes.now / 512) (words_of file.now.bytes.now)))
        res.old result res.new }
{
    let n = 126 * (file.blocks().len() - 1) + used;
    if res.len() < n {
        return Err(Refusal::ShortResult(n));
    }
    unpack(file, n, res);
    Ok(n)
}
