// The C functions. None has a `requires`. Each returns 0 where an answer is given, else a refusal's number, and writes
// the answer's values, or the refusal's place, into `values`, as far as these have room.
// C has no Option or Result: all values are of one kind (a yes is 1, a no 0), and each number is handed over singly.
ghost use Rattle.std.specs.Prelude.{◌≡◌, length};
ghost use Rattle.spec.specs.Outcome.{after};
ghost use Rattle.spec.specs.Blocks.{read_blocks, write_blocks};
ghost use Rattle.spec.specs.Verdict.{pure, truth_of, definitely_bool, empty_iterable, verdict_on};
ghost use Rattle.spec.specs.Inlining.{safe_on, inline_on};
ghost use Rattle.spec.specs.Pruning.{prune_on, result_after, work_after};
ghost use Rattle.counting.specs.Counts.{truth_counts_on};
ghost use Rattle.values.specs.Told.{Told};
ghost use Rattle.answers.specs.Told.{size_value, bool_value, truth_value, safe_values, inline_values, pruned_values};
ghost use Rattle.answers.specs.Told.{truth_counts_values};
ghost use Rattle.exports.specs.Told.{Alike, LeftStanding};

use answers::tell;

// Value: how many words were put at the start of the result. Refusals 1 to 4 and 11.
#[unsafe(no_mangle)]
#[tactic(auto, using(crate::proofs::Tellings::size_told))]
pub extern "C" fn tinzoher_read_blocks(file: &[u8], res: &mut [u32], values: &mut [u64]) -> u32
    ensures told { Told size_value (read_blocks file.now (length res.old)) values.old result
        values.new }
    ensures res_after { res.new
        ≡ after (read_blocks file.now (length res.old)) res.old }
{
    let answer = blocks::read_blocks(file, res);
    tell(answer, values)
}

// Value: how many bytes were put at the start of the result. Refusals 5 and 11.
#[unsafe(no_mangle)]
#[tactic(auto, using(crate::proofs::Tellings::size_told))]
pub extern "C" fn tinzoher_write_blocks(words: &[u32], res: &mut [u8], values: &mut [u64]) -> u32
    ensures told { Told size_value (write_blocks words.now (length res.old)) values.old result
        values.new }
    ensures res_after { res.new
        ≡ after (write_blocks words.now (length res.old)) res.old }
{
    let answer = blocks::write_blocks(words, res);
    tell(answer, values)
}

// Value: 1 where the expression cannot fail and has no effect, else 0. Refusals 5 and 7 to 10.
#[unsafe(no_mangle)]
pub extern "C" fn tinzoher_is_pure_infallible(words: &[u32], values: &mut [u64]) -> u32
    ensures { Told bool_value (verdict_on pure words.now) values.old result values.new }
{
    let answer = verdict::is_pure_infallible(words);
    tell(answer, values)
}

// Value: the truth of the expression where it is known without running anything, 0 or 1, else 2. Refusals 5 and 7 to
// 10.
#[unsafe(no_mangle)]
pub extern "C" fn tinzoher_is_pure_infallible_to_bool(words: &[u32], values: &mut [u64]) -> u32
    ensures { Told truth_value (verdict_on truth_of words.now) values.old result values.new }
{
    let answer = verdict::is_pure_infallible_to_bool(words);
    tell(answer, values)
}

// Value: 1 where the expression can only give a bool, else 0. Refusals 5 and 7 to 10.
#[unsafe(no_mangle)]
pub extern "C" fn tinzoher_is_definitely_bool(words: &[u32], values: &mut [u64]) -> u32
    ensures { Told bool_value (verdict_on definitely_bool words.now) values.old result
        values.new }
{
    let answer = verdict::is_definitely_bool(words);
    tell(answer, values)
}

// Value: 1 where a loop over the expression does nothing, else 0. Refusals 5 and 7 to 10.
#[unsafe(no_mangle)]
pub extern "C" fn tinzoher_is_iterable_empty(words: &[u32], values: &mut [u64]) -> u32
    ensures { Told bool_value (verdict_on empty_iterable words.now) values.old result
        values.new }
{
    let answer = verdict::is_iterable_empty(words);
    tell(answer, values)
}

// Values: 1 where the expression is safe to inline with so many parameters, else 0; and the nodes that were entered:
// all of them on a yes; on a no those in word order up to and including the first that is forbidden, or 101 if the
// limit came first. Refusals 5 and 7 to 10.
#[unsafe(no_mangle)]
#[tactic(auto, using(crate::proofs::Tellings::safety_told))]
pub extern "C" fn tinzoher_is_safe_to_inline_expr(
    words: &[u32],
    param_count: u32,
    values: &mut [u64],
) -> u32
    ensures { Told safe_values (safe_on param_count words.now) values.old result values.new }
{
    let answer = def_inline::is_safe_to_inline_expr(words, param_count);
    tell(answer, values)
}

// Values: what the body of a function gives to inlining: 0 and 0 for neither, 1 and the text of a type test, 2 and the
// word where a safe expression begins, 3 and 0 for None. Refusals 5 and 7 to 10.
#[unsafe(no_mangle)]
#[tactic(auto, using(crate::proofs::Tellings::inline_told))]
pub extern "C" fn tinzoher_inline_def_body(
    words: &[u32],
    params: u32,
    first_positional: bool,
    star: bool,
    param_variables: u32,
    values: &mut [u64],
) -> u32
    ensures { Told inline_values (inline_on params first_positional star param_variables words.now)
        values.old result values.new }
{
    let answer = def_inline::inline_def_body(
        words,
        params,
        first_positional,
        star,
        param_variables,
    );
    tell(answer, values)
}

// Values: how many words were put at the start of the result, and how many foldable places were met. Refusals 5 to 11.
#[unsafe(no_mangle)]
#[tactic(auto, using(crate::proofs::Tellings::prune_clauses))]
pub extern "C" fn tinzoher_prune(
    words: &[u32],
    work: &mut [u32],
    res: &mut [u32],
    values: &mut [u64],
) -> u32
    ensures told { Told pruned_values
        (prune_on words.now (length work.old) (length res.old))
        values.old result values.new }
    ensures res_after { res.new
        ≡ result_after (prune_on words.now (length work.old) (length res.old))
        res.old }
    ensures work_after { work.new
        ≡ work_after (prune_on words.now (length work.old) (length res.old))
        work.old }
    ensures alike { Alike words.now result res.new }
    ensures left_standing { LeftStanding result values.new res.new }
{
    let answer = prune::prune(words, work, res);
    tell(answer, values)
}

// Values: how many of all expressions of exactly n nodes, built from True, False, Local 0, Not, And and Or, have truth
// yes, no and unknown. Refusal 19.
#[unsafe(no_mangle)]
pub extern "C" fn tinzoher_truth_counts(n: u32, values: &mut [u64]) -> u32
    ensures { Told truth_counts_values (truth_counts_on n) values.old result values.new }
{
    let answer = counting::truth_counts(n);
    tell(answer, values)
}
