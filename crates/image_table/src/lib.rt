// The block table.
#![tactic(auto)]

ghost use Rattle.std.specs.Prelude.{◌≡◌, ◌&&◌, ◌+◌, ◌*◌, ◌<◌, ◌≤◌, eqb, ltb, length, get_or, drop};
ghost use Rattle.rules.specs.Sizes.{block_count, row_size, table_size};
ghost use Rattle.rules.specs.Sorts.{thread, lock};
ghost use Rattle.rules.specs.Bytes.{all_from};
ghost use Rattle.rules.specs.Image.{row_at};
ghost use Rattle.rules.specs.Check.{row_ok};
ghost use Rattle.bytes_fields.specs.Marked.{clear};
ghost use Rattle.bytes_fields.specs.Numbers.{num64};
ghost use Rattle.image_table.specs.BadRow.{bad_row};

use bytes_fields::read::{get64, wide};
use rules::layout::{ROW_KIND_PLACE, ROW_LOCK_PLACE, ROW_SIZE, ROW_THREAD_PLACE};
use rules::sorts::{Block, Lock, Thread, block_number};

// The field at a place of a block's row.
pub fn field_at(table: &[u8], b: Block, place: usize) -> u8
    requires { (b.0 < block_count) × (length table.now ≡ table_size) × (place < row_size) }
    ensures { result ≡ get_or table.now (row_size * b.0 + place) 0 }
{
    let row = ROW_SIZE * wide(block_number(b));
    table[row + place]
}

// The thread of a block.
#[tactic(auto, using(crate::specs::Rows::field_is), unfolding(rules::specs::Image::row_at))]
pub fn thread_at(table: &[u8], b: Block) -> Thread
    requires { (b.0 < block_count) × (length table.now ≡ table_size) }
    ensures { result ≡ thread (row_at table.now b.0).thread }
{
    Thread::from(field_at(table, b, ROW_THREAD_PLACE))
}

// The kind of a block: 0 FD, 1 CMX.
// Kept: that the answer is the byte of the row is promised (docs/PROMISES.md), and a kind would lose what an unchecked byte says.
#[tactic(auto, using(crate::specs::Rows::field_is), unfolding(rules::specs::Image::row_at))]
pub fn kind_at(table: &[u8], b: Block) -> u8
    requires { (b.0 < block_count) × (length table.now ≡ table_size) }
    ensures { result ≡ (row_at table.now b.0).kind }
{
    field_at(table, b, ROW_KIND_PLACE)
}

// The lock of a block. It guards every block that has it.
#[tactic(auto, using(crate::specs::Rows::field_is), unfolding(rules::specs::Image::row_at))]
pub fn lock_at(table: &[u8], b: Block) -> Lock
    requires { (b.0 < block_count) × (length table.now ≡ table_size) }
    ensures { result ≡ lock (row_at table.now b.0).lock }
{
    Lock::from(field_at(table, b, ROW_LOCK_PLACE))
}

// The field at a place of a block's row has one of so many values.
pub fn field_ok(table: &[u8], b: Block, place: usize, limit: usize) -> bool
    requires { (b.0 < block_count) × (length table.now ≡ table_size) × (place < row_size) }
    ensures { result ≡ ltb (get_or table.now (row_size * b.0 + place) limit) limit }
{
    wide(field_at(table, b, place)) < limit
}

// Each field of a block's row is in range.
#[tactic(auto, unfolding(rules::specs::Check::row_ok, rules::specs::Bytes::every))]
pub fn row_ok(table: &[u8], b: Block) -> bool
    requires { (b.0 < block_count) × (length table.now ≡ table_size) }
    ensures { result ≡ row_ok table.now b.0 }
{
    field_ok(table, b, ROW_THREAD_PLACE, Thread::COUNT)
        & field_ok(table, b, ROW_KIND_PLACE, Block::KINDS)
        & field_ok(table, b, ROW_LOCK_PLACE, Lock::COUNT)
}

// Bits that no row has. The limit of each field is a power of two, so a field is below it exactly if it has none of the bits from the
// limit on.
const ROW_MARKS: u64 = 256 - Thread::COUNT as u64
    + 256 * (256 - Block::KINDS as u64)
    + 65536 * (256 - Lock::COUNT as u64);

// Eight rows are three words of eight bytes: the marks of the rows that have a part in each.
const FIRST_MARKS: u64 = ROW_MARKS + 16777216 * ROW_MARKS + 281474976710656 * (ROW_MARKS % 65536);

const SECOND_MARKS: u64 = ROW_MARKS / 65536
    + 256 * ROW_MARKS
    + 4294967296 * ROW_MARKS
    + 72057594037927936 * (ROW_MARKS % 256);

const THIRD_MARKS: u64 = ROW_MARKS / 256 + 65536 * ROW_MARKS + 1099511627776 * ROW_MARKS;

const EIGHT_ROWS: usize = 8 * ROW_SIZE;

// The marked bits of a word of the first eight rows, and of the word at the same place of the last eight.
fn marked_bits(table: &[u8], at: usize, marks: u64) -> u64
    requires { (at + 8 ≤ 8 * row_size) × (length table.now ≡ table_size) }
    ensures { eqb result 0 ≡ (clear (num64 (drop at table.now)) marks
        && clear (num64 (drop (8 * row_size + at) table.now)) marks) }
{
    (get64(table, at) & marks) | (get64(table, EIGHT_ROWS + at) & marks)
}

// Every row is in range.
pub fn rows_ok(table: &[u8]) -> bool
    requires { length table.now ≡ table_size }
    ensures { result ≡ all_from (row_ok table.now) 0 block_count }
{
    let wrong = marked_bits(table, 0, FIRST_MARKS) | marked_bits(table, 8, SECOND_MARKS);
    wrong | marked_bits(table, 16, THIRD_MARKS) == 0
}

// The first block whose row is out of range.
pub fn first_bad_row(table: &[u8]) -> Option<Block>
    requires { length table.now ≡ table_size }
    ensures { result ≡ bad_row table.now }
{
    for b in 0..Block::COUNT as u8 {
        let block = Block::from(b);
        if !row_ok(table, block) {
            return Some(block);
        }
    }
    None
}
