// The tests of a record's head, of its labels, and of what it stores to.
ghost use Rattle.std.specs.Prelude.{◌≡◌, ◌<◌, drop};
ghost use Rattle.rules.specs.Bytes.{has};
ghost use Rattle.rules.specs.Sizes.{block_place};
ghost use Rattle.rules.specs.Image.{labels, record_at, label_a, label_b};
ghost use Rattle.bytes_fields.specs.Marked.{clear};
ghost use Rattle.bytes_fields.specs.Numbers.{num64};
ghost use Rattle.check_record.specs.Tests.{summed, agrees, second_ok, stores_ok, allows};

use crate::rows::Row;
use bytes_fields::read::{get16, get64, join16, wide};
use rules::codes::{DIVIDE, REGISTER_OPERAND};
use rules::layout::{
    BLOCK_PLACE, OPERAND_COUNT_PLACE, OPERAND_SIZE, OPERANDS_PLACE, OPERATOR_PLACE, RECORD_SIZE,
};

// The sum of operand count and four times the operator is one of these.
pub fn sum_ok(r: &[u8; RECORD_SIZE], sums: u32) -> bool
    ensures { result ≡ has (summed r.now) sums }
{
    let sum = wide(r[OPERAND_COUNT_PLACE]) + 4 * wide(r[OPERATOR_PLACE]);
    (sums >> (sum % 32)) & 1 == 1
}

// None of these bits is set in bytes 1 to 8.
pub fn zeros_ok(r: &[u8; RECORD_SIZE], zeros: u64) -> bool
    ensures { result ≡ clear (num64 (drop block_place r.now)) zeros }
{
    get64(r, BLOCK_PLACE) & zeros == 0
}

// The record at label v has this block and this entry, in the bits that are given.
pub fn label_ok(image: &[u8], v: usize, block: u8, entry: u8, given: u16) -> bool
    requires { v < labels image.now }
    ensures { result ≡ agrees (record_at image.now v) block entry given }
{
    get16(image, RECORD_SIZE * v + BLOCK_PLACE) & given == join16(block, entry) & given
}

// The places of the second operand and of the first two operands' values.
const SECOND_PLACE: usize = OPERANDS_PLACE + OPERAND_SIZE;

const FIRST_VALUE_PLACE: usize = OPERANDS_PLACE + 1;

const SECOND_VALUE_PLACE: usize = SECOND_PLACE + 1;

// The second destination is no number, and not the first.
pub fn second_ok(r: &[u8; RECORD_SIZE]) -> bool
    ensures { result ≡ second_ok r.now }
{
    let same = (r[OPERANDS_PLACE] == r[SECOND_PLACE])
        & (get16(r, FIRST_VALUE_PLACE) == get16(r, SECOND_VALUE_PLACE));
    (REGISTER_OPERAND <= r[SECOND_PLACE]) & !same
}

// The first operand is of this kind or a greater one, and DIVIDE has two destinations.
pub fn stores_ok(r: &[u8; RECORD_SIZE], least: u8, op: u8) -> bool
    ensures { result ≡ stores_ok r.now least op }
{
    let first = least <= r[OPERANDS_PLACE];
    if op == DIVIDE {
        first & second_ok(r)
    } else {
        first
    }
}

// The tests of a row, of a record whose labels are a and b. A good record fails none, so the processor foresees each. The sum comes before
// the eight bytes that are read as one number: else the compiler takes count and operator out of it, which is slower.
// Kept: a and b are handed on beside the record: read from it once more they take 6 instructions of 106 a record.
pub fn row_ok(image: &[u8], r: &[u8; RECORD_SIZE], a: usize, b: usize, row: Row) -> bool
    requires { (a ≡ label_a r.now) × (b ≡ label_b r.now) × (a < labels image.now) × (b < labels image.now) }
    ensures { result ≡ allows image.now r.now row }
{
    if !sum_ok(r, row.sums) {
        return false;
    }
    if !zeros_ok(r, row.zeros) {
        return false;
    }
    let own = r[BLOCK_PLACE];
    if !label_ok(image, a, own, row.entry, row.given) {
        return false;
    }
    label_ok(image, b, own, 0, row.inner)
}
