// Prints a line for each number of nodes from 1 to 20: the number, and of all expressions of exactly so many nodes,
// built from True, False, Local 0, Not, And and Or, how many have truth yes, no and unknown.
#![tactic(auto)]

use counting::{TruthCounts, truth_counts};
use std::io;
use std::io::Print;

// Expressions of more nodes are not counted.
const MOST_NODES: u32 = 20;

fn main(rt: HostRuntime) -> io::Result<()> {
    for n in 1..MOST_NODES + 1 {
        print_counted(&rt, n)?;
    }
    Ok(())
}

// One line: `N YES NO UNKNOWN`, or `refused 19 at N`.
fn print_counted(rt: &impl Print, n: u32) -> io::Result<()> {
    match truth_counts(n) {
        Ok(counts) => print_counts(rt, n, counts),
        Err(refusal) => println!(rt; "{refusal}"),
    }
}

fn print_counts(rt: &impl Print, n: u32, counts: TruthCounts) -> io::Result<()> {
    let TruthCounts { yes, no, unknown } = counts;
    println!(rt; "{n} {yes} {no} {unknown}")
}
