// Prints the four verdicts on expressions that are as deep or as wide as they may be, and on some just past the limits:
// 200 levels and 16,128 words. 2 MiB of stack are enough for it.
#![tactic(auto)]

ghost use Rattle.std.specs.Prelude.{◌≤◌, ◌<◌, ◌+◌, ◌*◌, ◌^◌};

use std::io;
use std::io::Print;
use tables::details::{Builtin1, Class, LogicalBinOp};
use tables::exprs::ExprKind;
use tables::header::header_of;

// The words that are made, some more than an expression may have: in fixed arrays, as the project has no heap.
const WORDS: usize = 16384;

// Each of the expressions in turn.
fn main(rt: HostRuntime) -> io::Result<()> {
    let not = header_of(ExprKind::Builtin1, Builtin1::Not as u32);
    let and = header_of(ExprKind::LogicalBinOp, LogicalBinOp::And as u32);
    let list = ExprKind::List;
    let tuple = ExprKind::Tuple;
    let dict = ExprKind::Dict;
    run_deep(&rt, "Not 199 times: ", not, 199, 1)?;
    run_deep(&rt, "Not 200 times: ", not, 200, 1)?;
    run_deep(&rt, "And 199 times: ", and, 199, 200)?;
    run_wide(&rt, "List of 16000 tuples: ", list, 16000, tuple, 16001)?;
    run_wide(&rt, "Tuple of 16000 lists: ", tuple, 16000, list, 16001)?;
    run_wide(&rt, "Dict of 8000 pairs: ", dict, 8000, tuple, 16001)?;
    run_call(&rt, "Call with 16000 arguments: ", 16000)?;
    run_wide(&rt, "List of 16128 words: ", list, 16127, tuple, 16128)?;
    run_wide(&rt, "List of 16129 words: ", list, 16128, tuple, 16129)
}

// A header `times` times, one inside the other, and then the constants that are the parts: each is the int of the same
// number as its header. The numbers of a case go singly: in a struct they would take a line each, above.
fn run_deep(
    rt: &impl Print,
    title: &str,
    header: u32,
    times: usize,
    constants: usize,
) -> io::Result<()>
    requires { times + 2 * constants ≤ 16384 }
{
    let size = times + 2 * constants;
    let mut words = [0; WORDS];
    words[..times].fill(header);
    words[times..size].fill(header_of(ExprKind::Const, Class::Int as u32));
    show(rt, title, &words[..size])
}

// A node of a kind and with a detail, whose parts are displays of no parts, of one word each.
fn run_wide(
    rt: &impl Print,
    title: &str,
    kind: ExprKind,
    detail: u32,
    part: ExprKind,
    size: usize,
) -> io::Result<()>
    requires detail_bound { detail < 2 ^ 24 }
    requires size_bound { size ≤ 16384 }
{
    let mut words = [header_of(part, 0); WORDS];
    words[0] = header_of(kind, detail);
    show(rt, title, &words[..size])
}

// A call of the type function with positional arguments, each an empty tuple.
fn run_call(rt: &impl Print, title: &str, arguments: u32) -> io::Result<()>
    requires { arguments ≤ 16380 }
{
    let mut words = [header_of(ExprKind::Tuple, 0); WORDS];
    let call = header_of(ExprKind::Call, arguments);
    let type_function = header_of(ExprKind::Const, Class::TypeFn as u32);
    words[..4].copy_from_slice(&[call, 0, type_function, 0]);
    let size = arguments as usize + 4;
    show(rt, title, &words[..size])
}

// Prints the title, and the line for the words.
fn show(rt: &impl Print, title: &str, words: &[u32]) -> io::Result<()> {
    print!(rt; "{title}")?;
    verdict_lines::print_verdicts(rt, words)
}
