// Words in a lent buffer: copied within it, or set to zero. Internal: the pass calls these on its work words.
// Places are numbers beside the words: a view of those at a place would borrow what a copy writes.
// The place to read and the place to write are two parameters, here and in the crates that call these: nearly every
// call has two new places, so a struct of them would be made for that one call.
#![tactic(auto)]

ghost use Rattle.std.specs.Prelude.{◌≡◌, ◌++◌, ◌≤◌, length, drop, replicate};
ghost use Rattle.buffer.specs.Copy.{Clear, copied, PutAsk, PutDone};

// Copies the n words at `from` to `to`: to a place above them, or down to a lower place, which they may overlap.
// A loop: with `copy_within` the pass is slower, by up to 7 in 100 over real rules and by 22 over chains of And.
#[tactic(auto, using(crate::proofs::Copies::copied_more))]
pub fn copy_words(words: &mut [u32], from: usize, to: usize, n: usize)
    requires { Clear (length words.old) from to n }
    ensures { words.new ≡ copied words.old from to n }
{
    for i in 0..n {
        let word = words[from + i];
        words[to + i] = word;
    }
}

// Sets every word to 0. A function of its own, so that callers are told so by one equation: `fill` promises it of any
// type, on the condition that each clone of a value equals the value.
pub fn zero_fill(words: &mut [u32])
    ensures { words.new ≡ replicate (length words.old) 0 }
{
    words.fill(0);
}

// Copies the words from `from` up to `end` to `top`, and answers where they end there.
#[tactic(auto, using(crate::proofs::Copies::put_clear, crate::proofs::Copies::put_done))]
pub fn put(words: &mut [u32], from: usize, end: usize, top: usize) -> usize
    requires { PutAsk (length words.old) from end top }
    ensures { PutDone words.old words.new from end top result }
{
    let n = end - from;
    copy_words(words, from, top, n);
    top + n
}

// Copies all of the source to the start of the words. A loop: `copy_from_slice` is a call of memcpy, and the library for
// C calls memset alone.
#[tactic(auto, using(crate::proofs::Copies::copied_in_more))]
pub fn copy_in(source: &[u32], words: &mut [u32])
    requires { length source.now ≤ length words.old }
    ensures { words.new ≡ source.now ++ drop (length source.now) words.old }
{
    for i in 0..source.len() {
        let word = source[i];
        words[i] = word;
    }
}
