// Writing one block.
ghost use Rattle.std.specs.Prelude.{◌≡◌, ◌<◌, ◌≤◌, length};
ghost use Rattle.spec.specs.Blocks.{bytes_of, block};
ghost use Rattle.block_words.specs.Placed.{placed};
ghost use Rattle.blocks.specs.Padded.{padded};

use block_words::{block_sum, head_of, put_word};

// Writes a block's rule words behind word 0, and zeros behind them. The block's bytes are a slice, as the result is cut
// by the block's number.
fn put_rule(rule: &[u32], bytes: &mut [u8])
    requires few { length rule.now ≤ 126 }
    requires size { length bytes.old ≡ 512 }
    ensures { bytes.new ≡ placed bytes.old 4 (bytes_of (padded rule.now)) }
{
    bytes[4..508].fill(0);
    for (i, word) in rule.iter().enumerate() {
        put_word(bytes, 1 + i, *word);
    }
}

pub(crate) fn write_block(number: usize, rule: &[u32], bytes: &mut [u8])
    requires number_bound { number < 128 }
    requires few { length rule.now ≤ 126 }
    requires size { length bytes.old ≡ 512 }
    ensures { bytes.new ≡ bytes_of (block number rule.now) }
{
    let used = rule.len();
    let head = head_of(number, used);
    put_word(bytes, 0, head);
    put_rule(rule, bytes);
    let sum = block_sum(bytes);
    put_word(bytes, 127, sum);
}
