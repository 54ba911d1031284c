// The entry points: whether the expression that the words hold is safe to inline, and what the body that they hold
// gives to inlining. None has a `requires`.
ghost use Rattle.std.specs.Prelude.{◌≡◌};
ghost use Rattle.refusal.specs.Answers.{outcome_by};
ghost use Rattle.spec.specs.Inlining.{safe_on, inline_on};
ghost use Rattle.def_inline.specs.Told.{safety_of, inline_of};

use crate::body::InlineDefBody;
use crate::expr::Safety;
use crate::{body, expr};
use reader::read_words;
use refusal::Refusal;
use spec::Sort;

// Whether the expression is safe to inline where there are so many parameters. The nodes entered are all of them on a
// yes; on a no those in word order up to and including the first that is forbidden, or 101 if the limit came first.
// Refusals 5 and 7 to 10.
#[tactic(auto, using(verdict::proofs::Entries::some_expr, crate::proofs::Entries::safe_given))]
pub fn is_safe_to_inline_expr(words: &[u32], param_count: u32) -> Result<Safety, Refusal>
    ensures { outcome_by safety_of result ≡ safe_on param_count words.now }
{
    read_words(words, Sort::Expr)?;
    Ok(expr::is_safe_to_inline_expr(words, 0, param_count))
}

// What the body gives to inlining, of a function that has so many parameters, the first of which takes a position or
// not, star parameters or none, and so many parameter variables: a type test with its text number, a safe expression
// with the word where it begins, None, or neither. Refusals 5 and 7 to 10. The four stay parameters, as in `body`.
#[tactic(auto, using(crate::proofs::Entries::some_list, crate::proofs::Entries::inline_given))]
pub fn inline_def_body(
    words: &[u32],
    params: u32,
    first_positional: bool,
    star: bool,
    param_variables: u32,
) -> Result<InlineDefBody, Refusal>
    ensures { outcome_by inline_of result ≡ inline_on params first_positional star param_variables words.now }
{
    read_words(words, Sort::List)?;
    Ok(body::inline_def_body(words, params, first_positional, star, param_variables))
}
