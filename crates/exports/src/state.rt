// The C functions over the state of a last block, which the caller keeps. None has a `requires`: any numbers may stand
// in the state.
ghost use Rattle.std.specs.Prelude.{◌≡◌};
ghost use Rattle.last_block.specs.States.{begun, stepped};
ghost use Rattle.exports.specs.Told.{LastTold};

use answers::tell_known;
use last_block::LastBlock;

// The state before any word, for a block that is to have this number.
#[unsafe(no_mangle)]
pub extern "C" fn tinzoher_last_block_new(block: &mut LastBlock, number: u16)
    ensures { block.new ≡ begun number }
{
    *block = LastBlock::new(number);
}

// The state with the next word.
#[unsafe(no_mangle)]
pub extern "C" fn tinzoher_last_block_step(block: &mut LastBlock, word: u32)
    ensures { block.new ≡ stepped block.old word }
{
    *block = block.step(word);
}

// The answer of a state, by value.
#[tactic(auto, using(crate::proofs::Tellings::state_told))]
fn tell_state(state: LastBlock, values: &mut [u64]) -> u32
    ensures { LastTold state values.old result values.new }
{
    let answer = state.answer();
    tell_known(answer, values)
}

// Values: 0 and 0 before the 128th word, then 1 and the count of rule words. Refusals 2 to 4.
#[unsafe(no_mangle)]
pub extern "C" fn tinzoher_last_block_answer(block: &LastBlock, values: &mut [u64]) -> u32
    ensures { LastTold block.now values.old result values.new }
{
    tell_state(*block, values)
}
