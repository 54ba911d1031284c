// Prunes a rule: reads its block file from standard input, at most 65,537 bytes of it, and prints how many words the
// pruned rule has and how many foldable places were met, and then its words, or why the file was turned back.
#![tactic(auto)]

use std::io;

// One byte more than a file may have, so that a file that is too long is turned back. A program has no heap: the file
// stands on the stack.
const BYTES: usize = 65537;

fn main(rt: HostRuntime) -> io::Result<()> {
    let mut file = [0u8; BYTES];
    let mut input = rt.stdin();
    let size = console::read_full(&mut input, &mut file);
    tidy::print_tidied(&rt, &file[..size])
}
