// The core of an expression statement: what stands inside the nodes that only hand their one part on. Internal: the
// crate `in_place` calls it on expressions that were made.
#![tactic(auto)]

ghost use Rattle.std.specs.Prelude.{IfSome};
ghost use Rattle.ir.specs.Standing.{SomeExpr};
ghost use Rattle.cores.specs.Cores.{PartDone, CoreDone};

use stmt::{Way, way_at};

// The place of the one part whose statements are the expression's, of a tuple or list of one part, Not, TypeIs or a
// type call.
#[tactic(auto, using(crate::proofs::Chains::part_kinds))]
fn part_of(words: &[u32], at: usize) -> Option<usize>
    requires { SomeExpr words.now at }
    ensures { IfSome result (PartDone words.now at) }
{
    match way_at(words, at) {
        Way::Parts(first, count) if count == 1 => Some(first),
        Way::Part(part) => Some(part),
        _ => None,
    }
}

// The place of an expression whose statements are those of the expression at `at`, and which ends where that does.
#[tactic(auto, using(crate::proofs::Chains::cores))]
pub fn core_at(words: &[u32], at: usize) -> usize
    requires { SomeExpr words.now at }
    ensures { CoreDone words.now at result }
{
    let mut core = at;
    while let Some(part) = part_of(words, core) {
        core = part;
    }
    core
}
