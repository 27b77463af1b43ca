// The rules of a record.
ghost use Rattle.std.specs.Prelude.{◌≡◌, ◌&&◌, ◌≤◌, ◌<◌, length};
ghost use Rattle.rules.specs.Sizes.{record_size, operand_count};
ghost use Rattle.rules.specs.Image.{labels, operands};
ghost use Rattle.rules.specs.Check.{rule_ok};
ghost use Rattle.check_operands.specs.Operands.{slots_ok};
ghost use Rattle.check_record.specs.Tests.{stores_ok, Stores};

use crate::outline::{row_ok, stores_ok};
use crate::rows::row_of;
use check_operands::runs::{few_ok, many_ok, none_ok};
use image_record::record_fields::{label_a, label_b};
use rules::codes::DECIMAL_ADD;
use rules::layout::{OPCODE_PLACE, OPERAND_COUNT_PLACE, RECORD_SIZE};
use rules::sorts::label_number;

// The most operands of a record that are few.
const FEW: u8 = 5;

// The operands of a record. No record that stores has none or more than a few, so the others are not tested for what they store to.
fn operands_ok(r: &[u8; RECORD_SIZE], least: u8, op: u8) -> bool
    requires { (operands r.now ≤ operand_count) × Stores r.now least op }
    ensures { result ≡ (stores_ok r.now least op && slots_ok r.now) }
{
    let c = r[OPERAND_COUNT_PLACE];
    if c == 0 {
        return none_ok(r);
    }
    if FEW < c {
        return many_ok(r);
    }
    if !stores_ok(r, least, op) {
        return false;
    }
    few_ok(r)
}

// A record breaks no rule. A label that is not used is 0, which is below n.
pub fn rule_ok(image: &[u8], n: usize, r: &[u8]) -> bool
    requires { (n ≡ labels image.now) × (0 < n) × (length r.now ≡ record_size) }
    ensures { result ≡ rule_ok image.now r.now }
{
    let r: &[u8; RECORD_SIZE] = r.try_into().unwrap();
    let a = usize::from(label_number(label_a(r)));
    if n <= a {
        return false;
    }
    let b = usize::from(label_number(label_b(r)));
    if n <= b {
        return false;
    }
    let op = r[OPCODE_PLACE];
    if DECIMAL_ADD < op {
        return false;
    }
    let row = row_of(op);
    if !row_ok(image, r, a, b, row) {
        return false;
    }
    operands_ok(r, row.least, op)
}
