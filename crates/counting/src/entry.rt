// The entry point: of all expressions of exactly n nodes over True, False, Local 0, Not, And and Or, how many have each
// truth. It has no `requires`.
ghost use Rattle.std.specs.Prelude.{◌≡◌, ◌+◌, ◌*◌, ◌<◌, ◌≤◌, ◌^◌, length, MatchResult, ⊤};
ghost use Rattle.refusal.specs.Answers.{outcome_of};
ghost use Rattle.spec.specs.Tree.{and, or};
ghost use Rattle.counting.specs.Formulas.{formulas};
ghost use Rattle.counting.specs.Counts.{counts, most_nodes, truth_counts_on, EachOnce};
ghost use Rattle.counting.specs.Sums.{all, plus, opposites, joined_counts, both, Filled};

use refusal::Refusal;

// Expressions of more nodes are not counted.
const MOST_NODES: usize = 20;

const NONE: TruthCounts = TruthCounts {
    yes: 0,
    no: 0,
    unknown: 0,
};

// True, False and Local 0: the expressions of one node.
const LEAVES: TruthCounts = TruthCounts {
    yes: 1,
    no: 1,
    unknown: 1,
};

// How many expressions have each truth.
#[derive(Clone, Copy, Debug, PartialEq, Eq)]
pub struct TruthCounts {
    pub yes: u64,
    pub no: u64,
    pub unknown: u64,
}

impl TruthCounts {
    // How many there are.
    fn all(self) -> u64
        requires { all self < 2 ^ 64 }
        ensures { result ≡ all self }
    {
        self.yes + self.no + self.unknown
    }

    // The counts of two lists together.
    fn plus(self, others: TruthCounts) -> TruthCounts
        requires { all self + all others < 2 ^ 64 }
        ensures { result ≡ plus self others }
    {
        TruthCounts {
            yes: self.yes + others.yes,
            no: self.no + others.no,
            unknown: self.unknown + others.unknown,
        }
    }

    // The counts of Not of each.
    fn opposites(self) -> TruthCounts
        ensures { result ≡ opposites self }
    {
        TruthCounts {
            yes: self.no,
            no: self.yes,
            unknown: self.unknown,
        }
    }

    // The counts of And of each with each on the right; a left that is no decides.
    fn and(self, right: TruthCounts) -> TruthCounts
        requires right_bound { all right < 2 ^ 64 }
        requires pairs_bound { all self * all right < 2 ^ 64 }
        ensures { result ≡ joined_counts and self right }
    {
        TruthCounts {
            yes: self.yes * right.yes,
            no: self.no * right.all() + self.yes * right.no,
            unknown: self.unknown * right.all() + self.yes * right.unknown,
        }
    }

    // The counts of Or of each with each on the right; a left that is yes decides.
    fn or(self, right: TruthCounts) -> TruthCounts
        requires right_bound { all right < 2 ^ 64 }
        requires pairs_bound { all self * all right < 2 ^ 64 }
        ensures { result ≡ joined_counts or self right }
    {
        TruthCounts {
            yes: self.yes * right.all() + self.no * right.yes,
            no: self.no * right.no,
            unknown: self.unknown * right.all() + self.no * right.unknown,
        }
    }

    // The counts of both, And and Or.
    fn both(self, right: TruthCounts) -> TruthCounts
        requires right_bound { all right < 2 ^ 64 }
        requires both_bound { all (both self right) < 2 ^ 64 }
        ensures { result ≡ both self right }
    {
        self.and(right).plus(self.or(right))
    }
}

// The counts for n nodes. Refusal 19.
#[tactic(auto, using(crate::proofs::Determined::each_once))]
pub fn truth_counts(n: u32) -> Result<TruthCounts, Refusal>
    ensures answer { outcome_of result ≡ truth_counts_on n }
    ensures each_once { MatchResult result (EachOnce n) (λ _. ⊤) }
{
    let nodes = n as usize;
    if !(1..=MOST_NODES).contains(&nodes) {
        return Err(Refusal::NodeCount(nodes));
    }
    Ok(counts_for(nodes))
}

// The counts for so many nodes, filled in from 0 upwards.
#[tactic(auto, using(crate::proofs::Filling::filled_more))]
fn counts_for(nodes: usize) -> TruthCounts
    requires { nodes ≤ most_nodes }
    ensures { result ≡ counts (formulas nodes) }
{
    let mut counts = [NONE; MOST_NODES + 1];
    for n in 0..nodes + 1 {
        counts[n] = next_counts(&counts[..n]);
    }
    counts[nodes]
}

// The counts for the next number of nodes, from those for fewer.
#[tactic(auto, using(crate::proofs::Filling::none_counted, crate::proofs::Filling::leaves_counted))]
fn next_counts(fewer: &[TruthCounts]) -> TruthCounts
    requires filled { Filled fewer.now }
    requires most { length fewer.now ≤ most_nodes }
    ensures { result ≡ counts (formulas (length fewer.now)) }
{
    match fewer.len() {
        0 => NONE,
        1 => LEAVES,
        _ => compound_counts(fewer),
    }
}

// The same where there are two nodes or more: Not, And or Or stands on top of the rest.
#[tactic(auto, using(crate::proofs::Filling::sums))]
fn compound_counts(fewer: &[TruthCounts]) -> TruthCounts
    requires filled { Filled fewer.now }
    requires least { 2 ≤ length fewer.now }
    requires most { length fewer.now ≤ most_nodes }
    ensures { result ≡ counts (formulas (length fewer.now)) }
{
    let rest = fewer.len() - 1;
    let mut sum = fewer[rest].opposites();
    for left in 0..rest {
        let on_left = fewer[left];
        let on_right = fewer[rest - left];
        sum = sum.plus(on_left.both(on_right));
    }
    sum
}
