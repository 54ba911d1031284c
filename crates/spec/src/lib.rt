// Definitions and theorems, and no function: what document 01 says, for the contracts of the other crates to cite
// (specs/, proofs/). The enums below are words of those definitions that code shares.
#![tactic(auto)]

// What may stand at a place of the words: an expression, a target, a target other than a tuple (what an AssignModify
// takes), a statement, or a list of statements, which is a count and then the statements.
#[derive(Clone, Copy, Debug, PartialEq, Eq)]
pub enum Sort {
    Expr,
    Target,
    Single,
    Stmt,
    List,
}

// What is known of an expression's truth.
#[derive(Clone, Copy, Debug, PartialEq, Eq)]
pub enum Truth {
    Yes,
    No,
    Unknown,
}
