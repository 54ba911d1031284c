// Refusals 2 and 3 of one block, from its number, its word 0, its sum and its word 127. No other word of it is wanted,
// so that a block is judged alike by whoever has all its words and by whoever sees them one at a time. Internal: the
// checks of `block_check` and `last_block` call `judge`.
#![tactic(auto)]

ghost use Rattle.std.specs.Prelude.{◌≡◌};
ghost use Rattle.spec.specs.Blocks.{used_right, judged};
ghost use Rattle.refusal.specs.Answers.{outcome_of};

use block_words::{number_in, used_in};
use refusal::Refusal;

// Whether a block may have so many rule words.
fn used_right(last: bool, used: usize) -> bool
    ensures { result ≡ used_right last used }
{
    if last {
        (1..=126).contains(&used)
    } else {
        used == 126
    }
}

pub fn judge(last: bool, number: u32, head: u32, sum: u32, kept: u32) -> Result<(), Refusal>
    ensures { outcome_of result ≡ judged last number head sum kept }
{
    let place = 512 * number as usize;
    if number_in(head) != number {
        return Err(Refusal::BlockHead(place));
    }
    if !used_right(last, used_in(head)) {
        return Err(Refusal::BlockHead(place));
    }
    if sum != kept {
        return Err(Refusal::BlockSum(place));
    }
    Ok(())
}
