// Little-endian words in a run of bytes, by their number: word k stands in the bytes from 4 × k on. Internal: `blocks`
// and its checks call these.
#![tactic(auto)]

ghost use Rattle.std.specs.Prelude.{◌≡◌, ◌+◌, ◌*◌, ◌<◌, ◌≤◌, length, take, slice_index};
ghost use Rattle.spec.specs.Blocks.{bytes_of_word, words_of, checksum, number_in, count_in};
ghost use Rattle.block_words.specs.Placed.{placed};

// Word k.
#[tactic(auto, using(crate::proofs::Chunks::word_read))]
pub fn word_at(bytes: &[u8], k: usize) -> u32
    requires { 4 * k + 4 ≤ length bytes.now }
    ensures { result ≡ slice_index (words_of bytes.now) k }
{
    u32::from_le_bytes(bytes.as_chunks::<4>().0[k])
}

// Stores word k.
pub fn put_word(bytes: &mut [u8], k: usize, word: u32)
    requires { 4 * k + 4 ≤ length bytes.old }
    ensures { bytes.new ≡ placed bytes.old (4 * k) (bytes_of_word word) }
{
    let at = 4 * k;
    bytes[at..at + 4].copy_from_slice(&word.to_le_bytes());
}

// Word 0 of a block: its number in the low half, how many rule words it has in the high half.
pub fn head_of(number: usize, used: usize) -> u32
    requires number_bound { number < 65536 }
    requires used_bound { used < 65536 }
    ensures { result ≡ number + 65536 * used }
{
    (number + 65536 * used) as u32
}

// A block's number, by its word 0.
pub fn number_in(head: u32) -> u32
    ensures { result ≡ number_in head }
{
    head % 65536
}

// How many rule words a block has, by its word 0.
pub fn used_in(head: u32) -> usize
    ensures { result ≡ count_in head }
{
    (head / 65536) as usize
}

// The sum of a block's words but the last. Reading and writing share it. A loop: a `fold` would say the same with a
// closure, and is no plainer.
#[tactic(auto, using(crate::proofs::Sums::sum_more), unfolding(spec::specs::Blocks::total))]
pub fn block_sum(block: &[u8]) -> u32
    requires { 508 ≤ length block.now }
    ensures { result ≡ checksum (take 127 (words_of block.now)) }
{
    let mut sum: u32 = 0;
    for word in &block.as_chunks::<4>().0[0..127] {
        sum = sum.wrapping_add(u32::from_le_bytes(*word));
    }
    sum
}
