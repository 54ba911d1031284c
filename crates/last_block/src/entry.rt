// The entry points: a state that keeps six numbers, a step for each word, and an answer. None has a `requires`: any
// words in any number may be handed over, and step and answer are defined for every state, also for one that no words
// lead to, since a caller keeps it.
ghost use Rattle.std.specs.Prelude.{◌≡◌};
ghost use Rattle.spec.specs.Blocks.{count_in, counted};
ghost use Rattle.refusal.specs.Answers.{outcome_by};
ghost use Rattle.last_block.specs.States.{begun, stepped, count_judged, found_in, answer_in};
ghost use Rattle.last_block.specs.Answers.{known_of, AsLoader};

use block_judge::judge;
use block_words::used_in;
use refusal::Refusal;

#[repr(C)]
#[derive(Clone, Copy)]
pub struct LastBlock {
    // the number that the block is to have
    pub number: u32,
    // the words handed over, at most 128
    pub seen: u32,
    // word 0
    pub head: u32,
    // the sum of all words before the latest
    pub sum: u32,
    // how many words there are up to the last that is not zero, of all before the latest
    pub filled: u32,
    // the latest word, in the end word 127: it waits for the next, since word 127 is not summed
    pub latest: u32,
}

impl LastBlock {
    // The state before any word, for a block that is to have this number.
    pub fn new(number: u16) -> LastBlock
        ensures { result ≡ begun number }
    {
        LastBlock {
            number: number as u32,
            seen: 0,
            head: 0,
            sum: 0,
            filled: 0,
            latest: 0,
        }
    }

    // The state with the next word. Behind the 128th no word changes it.
    pub fn step(self, word: u32) -> LastBlock
        ensures { result ≡ stepped self word }
    {
        let seen = self.seen;
        if 128 <= seen {
            return self;
        }
        let head = if seen == 0 { word } else { self.head };
        let filled = if self.latest == 0 { self.filled } else { seen };
        let sum = self.sum.wrapping_add(self.latest);
        LastBlock {
            seen: seen + 1,
            head,
            sum,
            filled,
            latest: word,
            ..self
        }
    }

    // Refusal 2, 3 or 4 of a block whose words were all handed over, or its count of rule words.
    fn found(self) -> Result<usize, Refusal>
        ensures { outcome_by counted result ≡ found_in self }
    {
        judge(true, self.number, self.head, self.sum, self.latest)?;
        self.counted()
    }

    // Refusal 4 of a block that 2 and 3 do not refuse, or its count of rule words.
    fn counted(self) -> Result<usize, Refusal>
        ensures { outcome_by counted result ≡ count_judged self.number (count_in self.head) self.filled }
    {
        let used = used_in(self.head);
        let most = 1 + used;
        if self.filled as usize <= most {
            Ok(used)
        } else {
            Err(Refusal::UnusedWord(512 * self.number as usize))
        }
    }

    // The loader's answer for the block, from the 128th word on: its count of rule words, or refusal 2, 3 or 4. Before,
    // there is none. No `bool::then`: it is the same test and call, with a closure.
    #[tactic(auto, using(crate::proofs::Fed::promised_none, crate::proofs::Fed::promised_some))]
    pub fn answer(self) -> Option<Result<usize, Refusal>>
        ensures result_value { known_of result ≡ answer_in self }
        ensures as_loader { AsLoader self result }
    {
        if self.seen < 128 {
            return None;
        }
        Some(self.found())
    }
}
