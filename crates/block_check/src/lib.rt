// Refusals 2, 3 and 4 of a file: what is wrong with its blocks. Internal: `blocks` calls `BlockFile::check`.
#![tactic(auto)]

ghost use Rattle.std.specs.Prelude.{◌≡◌, ◌-◌, ◌*◌, ◌/◌, ◌≤◌, ◌<◌, false, length, drop};
ghost use Rattle.std.specs.Simd.{first_chunks};
ghost use Rattle.spec.specs.Blocks.{words_of, block_judged, counted, last_block, judged_before, last_reached};
ghost use Rattle.refusal.specs.Answers.{outcome_of, outcome_by};

use block_judge::judge;
use block_words::{block_sum, word_at};
use last_block::LastBlock;
use refusal::Refusal;

// A file of 1 to 128 blocks.
#[derive(Clone, Copy)]
pub struct BlockFile<'a> {
    pub bytes: &'a [u8],
    ghost some: { 0 < length bytes.now / 512 },
    ghost most: { length bytes.now / 512 ≤ 128 },
}

impl<'a> BlockFile<'a> {
    // Its blocks.
    pub fn blocks(&self) -> &'a [[u8; 512]]
        ensures cut { result.now ≡ first_chunks 512 (length self.now.bytes.now / 512) self.now.bytes.now }
        ensures count { length result.now ≡ length self.now.bytes.now / 512 }
    {
        self.bytes.as_chunks::<512>().0
    }

    // Judges the blocks before the last one by one through 2 and 3, then the last, and answers its count of rule words.
    pub fn check(&self) -> Result<usize, Refusal>
        ensures { outcome_by counted result
            ≡ last_reached (length self.now.bytes.now / 512 - 1) (words_of self.now.bytes.now) }
    {
        self.check_before()?;
        self.check_last()
    }

    // Refusals 2 and 3 of the blocks before the last.
    #[tactic(auto, using(crate::proofs::Steps::block_goes), unfolding(spec::specs::Blocks::judged_before))]
    fn check_before(&self) -> Result<(), Refusal>
        ensures { outcome_of result
            ≡ judged_before (length self.now.bytes.now / 512 - 1) 0 (words_of self.now.bytes.now) }
    {
        let blocks = self.blocks();
        for (number, block) in blocks[..blocks.len() - 1].iter().enumerate() {
            check_block(number, block)?;
        }
        Ok(())
    }

    // The last block.
    #[tactic(auto, using(crate::proofs::Steps::last_same))]
    fn check_last(&self) -> Result<usize, Refusal>
        ensures { outcome_by counted result
            ≡ last_block (length self.now.bytes.now / 512 - 1)
            (drop (128 * (length self.now.bytes.now / 512 - 1)) (words_of self.now.bytes.now)) }
    {
        let blocks = self.blocks();
        let number = blocks.len() - 1;
        judge_last(number, &blocks[number])
    }
}

// Refusals 2 and 3 of a block that is not the last.
fn check_block(number: usize, block: &[u8; 512]) -> Result<(), Refusal>
    requires { number < 128 }
    ensures { outcome_of result ≡ block_judged false number (words_of block.now) }
{
    let head = word_at(block, 0);
    let sum = block_sum(block);
    let kept = word_at(block, 127);
    judge(false, number as u32, head, sum, kept)
}

// The answer for a last block: its words are handed over until there is one.
#[tactic(auto, using(crate::proofs::Steps::steps), unfolding(last_block::specs::States::fed))]
fn judge_last(number: usize, block: &[u8; 512]) -> Result<usize, Refusal>
    requires { number < 128 }
    ensures { outcome_by counted result ≡ last_block number (words_of block.now) }
{
    let mut state = LastBlock::new(number as u16);
    loop {
        match state.answer() {
            Some(answer) => return answer,
            None => state = state.step(word_at(block, state.seen as usize)),
        }
    }
}
