// The shared words of the blocks.
ghost use Rattle.std.specs.Prelude.{◌≡◌, ◌<◌, length, drop};
ghost use Rattle.rules.specs.Sizes.{block_count, word_count, state_size};
ghost use Rattle.rules.specs.Bytes.{num16, le16};
ghost use Rattle.bytes_fields.specs.Put.{put};
ghost use Rattle.state_shared.specs.Words.{word_place};

use bytes_fields::read::{get16, wide};
use bytes_fields::write::put16;
use rules::sorts::{Block, block_number};

// The place of a word.
fn word_at(block: Block, word: u16) -> usize
    requires { (block.0 < block_count) × (word < word_count) }
    ensures { result ≡ word_place block.0 word }
{
    2 * (Block::WORDS * wide(block_number(block)) + word as usize)
}

pub fn read_word(state: &[u8], block: Block, word: u16) -> u16
    requires { (length state.now ≡ state_size) × (block.0 < block_count) × (word < word_count) }
    ensures { result ≡ num16 (drop (word_place block.0 word) state.now) }
{
    get16(state, word_at(block, word))
}

pub fn write_word(state: &mut [u8], block: Block, word: u16, value: u16)
    requires { (length state.old ≡ state_size) × (block.0 < block_count) × (word < word_count) }
    ensures { state.new ≡ put state.old (word_place block.0 word) (le16 value) }
{
    put16(state, word_at(block, word), value);
}
