// Answers as C has them, by the functions of `values`: what a kind of answer is as values, and one function for all of
// them. Internal: the exported functions call these.
#![tactic(auto)]

ghost use Rattle.std.specs.Prelude.{List, ℕ, ◌≡◌};
ghost use Rattle.refusal.specs.Answers.{outcome_of};
ghost use Rattle.last_block.specs.Answers.{known_of};
ghost use Rattle.values.specs.Told.{laid, Told, one_value};
ghost use Rattle.answers.specs.Told.{known_values, bool_value, truth_value, truth_counts_values};
ghost use Rattle.answers.specs.Told.{shown_known, shown_safety, shown_inline, shown_counts};

use counting::TruthCounts;
use def_inline::{InlineDefBody, Safety};
use prune::Counts;
use refusal::Refusal;
use spec::Truth;
use values::{put, tell_refusal};

// What is told as one value, two or three.
pub trait Values {
    ghost shown: { Self → List ℕ };

    // Writes them, as many as there is room for.
    fn put(self, values: &mut [u64])
        ensures { values.new ≡ laid (shown self) values.old };
}

// How many elements were put into the result.
impl Values for usize {
    ghost shown = { one_value };

    fn put(self, values: &mut [u64]) {
        put(values, &[self as u64]);
    }
}

// 0 and 0 where there is nothing yet; 1 and the count of rule words.
impl Values for Option<usize> {
    ghost shown = { shown_known };

    fn put(self, values: &mut [u64]) {
        match self {
            None => put(values, &[0, 0]),
            Some(count) => put(values, &[1, count as u64]),
        }
    }
}

// 0 no, 1 yes.
impl Values for bool {
    ghost shown = { bool_value };

    fn put(self, values: &mut [u64]) {
        put(values, &[u64::from(self)]);
    }
}

// 0 no, 1 yes, 2 unknown.
impl Values for Truth {
    ghost shown = { truth_value };

    fn put(self, values: &mut [u64]) {
        match self {
            Truth::No => put(values, &[0]),
            Truth::Yes => put(values, &[1]),
            Truth::Unknown => put(values, &[2]),
        }
    }
}

// 0 no, 1 yes; and the nodes entered.
impl Values for Safety {
    ghost shown = { shown_safety };

    fn put(self, values: &mut [u64]) {
        put(values, &[self.safe as u64, self.visits as u64]);
    }
}

// 0 neither, 1 a type test with its text, 2 safe with the word where the expression begins, 3 None.
impl Values for InlineDefBody {
    ghost shown = { shown_inline };

    fn put(self, values: &mut [u64]) {
        match self {
            InlineDefBody::Neither => put(values, &[0, 0]),
            InlineDefBody::TypeTest(text) => put(values, &[1, text as u64]),
            InlineDefBody::Safe(at) => put(values, &[2, at as u64]),
            InlineDefBody::NoneValue => put(values, &[3, 0]),
        }
    }
}

// How many words were put into the result, and the foldable count.
impl Values for Counts {
    ghost shown = { shown_counts };

    fn put(self, values: &mut [u64]) {
        put(values, &[self.size as u64, self.foldable as u64]);
    }
}

// How many have truth yes, no and unknown.
impl Values for TruthCounts {
    ghost shown = { truth_counts_values };

    fn put(self, values: &mut [u64]) {
        put(values, &[self.yes, self.no, self.unknown]);
    }
}

// The number, 0 for an answer and else the refusal's; the values are the answer's, or the refusal's place.
pub fn tell<A: Values>(answer: Result<A, Refusal>, values: &mut [u64]) -> u32
    ensures { Told A.shown (outcome_of answer) values.old result values.new }
{
    match answer {
        Ok(answer) => {
            answer.put(values);
            0
        }
        Err(refusal) => tell_refusal(values, refusal),
    }
}

// The same of the answer of a block's state, which may be none yet.
pub fn tell_known(answer: Option<Result<usize, Refusal>>, values: &mut [u64]) -> u32
    ensures { Told known_values (known_of answer) values.old result values.new }
{
    tell(answer.transpose(), values)
}
