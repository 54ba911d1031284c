// The entry points: the four verdicts on the expression that the words hold. None has a `requires`.
ghost use Rattle.std.specs.Prelude.{◌≡◌};
ghost use Rattle.refusal.specs.Answers.{outcome_of};
ghost use Rattle.spec.specs.Verdict.{pure, truth_of, definitely_bool, empty_iterable, verdict_on};
ghost use Rattle.purity.specs.Told.{told_truth};

use purity::expr::{self, Known};
use reader::read_words;
use refusal::Refusal;
use spec::{Sort, Truth};

// The truth that `purity` tells, in the three cases of document 01. No `From`: neither `Option` nor `Truth` is declared
// in this crate.
fn truth_in(answer: Option<Known>) -> Truth
    ensures { result ≡ told_truth answer }
{
    match answer {
        Some(known) => if known.truth { Truth::Yes } else { Truth::No },
        None => Truth::Unknown,
    }
}

// Whether the expression is pure: it cannot fail and has no effect. Refusals 5 and 7 to 10.
#[tactic(auto, using(crate::proofs::Entries::some_expr, crate::proofs::Entries::pure_verdict))]
pub fn is_pure_infallible(words: &[u32]) -> Result<bool, Refusal>
    ensures { outcome_of result ≡ verdict_on pure words.now }
{
    read_words(words, Sort::Expr)?;
    Ok(expr::is_pure_infallible(words, 0).is_some())
}

// The truth of the expression, where it is known without running anything. Refusals 5 and 7 to 10.
#[tactic(auto, using(crate::proofs::Entries::some_expr, crate::proofs::Entries::truth_verdict))]
pub fn is_pure_infallible_to_bool(words: &[u32]) -> Result<Truth, Refusal>
    ensures { outcome_of result ≡ verdict_on truth_of words.now }
{
    read_words(words, Sort::Expr)?;
    Ok(truth_in(expr::is_pure_infallible_to_bool(words, 0)))
}

// Whether the expression can only give a bool. Refusals 5 and 7 to 10.
#[tactic(auto, using(crate::proofs::Entries::some_expr, crate::proofs::Entries::bool_verdict))]
pub fn is_definitely_bool(words: &[u32]) -> Result<bool, Refusal>
    ensures { outcome_of result ≡ verdict_on definitely_bool words.now }
{
    read_words(words, Sort::Expr)?;
    Ok(expr::is_definitely_bool(words, 0))
}

// Whether a loop over the expression does nothing. Refusals 5 and 7 to 10.
#[tactic(auto, using(crate::proofs::Entries::some_expr, crate::proofs::Entries::bool_verdict))]
pub fn is_iterable_empty(words: &[u32]) -> Result<bool, Refusal>
    ensures { outcome_of result ≡ verdict_on empty_iterable words.now }
{
    read_words(words, Sort::Expr)?;
    Ok(expr::is_iterable_empty(words, 0))
}
