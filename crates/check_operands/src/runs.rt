// The places for operands of a record, sixteen bytes at a time: a run is the byte before five places and their bytes. Each byte of a run is
// tested by itself, in the same way, so that the compiler tests all of them at once.
ghost use Rattle.std.specs.Prelude.{◌≡◌, ◌+◌, ◌*◌, ◌<◌, ◌≤◌, ◌&&◌, ◌==◌, nat_le};
ghost use Rattle.rules.specs.Sizes.{operand_count};
ghost use Rattle.rules.specs.Bytes.{all_from};
ghost use Rattle.rules.specs.Image.{operands};
ghost use Rattle.check_operands.specs.Operands.{run_step, run_size, most_of, less_of, bound_of};
ghost use Rattle.check_operands.specs.Operands.{byte_ok, run_ok, slots_ok};

use bytes_fields::read::{all_zero, wide};
use rules::codes::{NUMBER_OPERAND, WORD_OPERAND};
use rules::layout::{OPERAND_COUNT_PLACE, OPERAND_SIZE, OPERANDS_PLACE, RECORD_SIZE};
use rules::limits::Image;

// The places of a run, their bytes, and the bytes of a run.
const RUN_PLACES: u8 = 5;

const PLACE_SIZE: u8 = OPERAND_SIZE as u8;

const RUN_STEP: u8 = PLACE_SIZE * RUN_PLACES;

const RUN_SIZE: usize = RUN_STEP as usize + 1;

// The bytes of all places, and those behind the first run.
const PLACES_SIZE: usize = OPERAND_SIZE * Image::OPERANDS;

const REST_PLACE: usize = OPERAND_COUNT_PLACE + RUN_SIZE;

const REST_SIZE: usize = RECORD_SIZE - REST_PLACE;

// The numbers of the bytes of a run.
const NUMBERS: [u8; RUN_SIZE] = *b"\0\x01\x02\x03\x04\x05\x06\x07\x08\x09\x0a\x0b\x0c\x0d\x0e\x0f";

// All bits of the low bytes of the values, and of the high bytes.
const LOW: [u8; RUN_SIZE] = *b"\0\0\xff\0\0\xff\0\0\xff\0\0\xff\0\0\xff\0";

const HIGH: [u8; RUN_SIZE] = *b"\0\0\0\xff\0\0\xff\0\0\xff\0\0\xff\0\0\xff";

// The least kind.
const LEAST: [u8; RUN_SIZE] = *b"\0\x01\0\0\x01\0\0\x01\0\0\x01\0\0\x01\0\0";

// The greatest kind, less the least, and the greatest number of a register, in two bytes. The byte before the places is free.
const LIMIT: [u8; RUN_SIZE] = *b"\xff\x02\x18\0\x02\x18\0\x02\x18\0\x02\x18\0\x02\x18\0";

// The bits in which the greatest number of a shared word differs from that of a register.
const FEWER: u8 = 0x17;

// The limit of a byte of an operand of this kind: a number has none, and a shared word has a lower one.
fn most_of(kind: u8, limit: u8) -> u8
    ensures { result ≡ most_of kind limit }
{
    if kind == NUMBER_OPERAND { 255 } else { limit }
}

fn less_of(kind: u8, fewer: u8) -> u8
    ensures { result ≡ less_of kind fewer }
{
    if kind == WORD_OPERAND { fewer } else { 0 }
}

fn bound_of(kind: u8, limit: u8, fewer: u8) -> u8
    ensures { result ≡ bound_of kind limit fewer }
{
    most_of(kind, limit) ^ less_of(kind, fewer)
}

// How far a byte is over its limit.
fn over(x: u8, bound: u8) -> u8
    ensures { (result == 0) ≡ nat_le x bound }
{
    if bound < x { x - bound } else { 0 }
}

// What is wrong with a byte: where its place is used how far it is out of range, and else all of it. What is out of range is worked out
// first: behind the test the compiler would go byte by byte.
fn wrong_byte(x: u8, least: u8, bound: u8, used: bool) -> u8
    ensures { (result == 0) ≡ byte_ok x least bound used }
{
    let amiss = over(std::num::wrapping_sub_u8(x, least), bound);
    if used { amiss } else { x }
}

// What is wrong with the run at a byte, of a record whose places are used up to another. A kind stands one byte before the low byte of its
// value, and two before the high one.
fn wrong_run(r: &[u8; RECORD_SIZE], at: u8, end: u8) -> u8
    requires { at ≤ 4 * run_step }
    ensures { (result == 0) ≡ all_from (run_ok r.now at end) 0 run_size }
{
    let from = OPERAND_COUNT_PLACE + wide(at);
    let mut wrong: u8 = 0;
    for i in 0..RUN_SIZE {
        let kind = (r[from + i - 1] & LOW[i]) | (r[from + i - 2] & HIGH[i]);
        let bound = bound_of(kind, LIMIT[i], FEWER & LOW[i]);
        wrong |= wrong_byte(r[from + i], LEAST[i], bound, NUMBERS[i] + at < end);
    }
    wrong
}

// The same of the four runs behind the first.
fn wrong_rest(r: &[u8; RECORD_SIZE], end: u8) -> u8
    ensures { (result == 0) ≡ (all_from (run_ok r.now run_step end) 0 run_size
        && all_from (run_ok r.now (2 * run_step) end) 0 run_size
        && all_from (run_ok r.now (3 * run_step) end) 0 run_size
        && all_from (run_ok r.now (4 * run_step) end) 0 run_size) }
{
    wrong_run(r, RUN_STEP, end)
        | wrong_run(r, 2 * RUN_STEP, end)
        | wrong_run(r, 3 * RUN_STEP, end)
        | wrong_run(r, 4 * RUN_STEP, end)
}

// Where the places of so many operands end, counted from the byte before them. The remainder tells the compiler that this is below 128: it
// then compares bytes as numbers with a sign, which takes one instruction and not two.
fn end_of(c: u8) -> u8
    requires { c ≤ operand_count }
    ensures { result ≡ 1 + 3 * c }
{
    1 + PLACE_SIZE * (c % 32)
}

// No operand: every place is zero.
pub fn none_ok(r: &[u8; RECORD_SIZE]) -> bool
    requires { operands r.now ≡ 0 }
    ensures { result ≡ slots_ok r.now }
{
    all_zero(r, OPERANDS_PLACE, PLACES_SIZE)
}

// Up to five operands: they are in the first run, and the places behind it are zero.
pub fn few_ok(r: &[u8; RECORD_SIZE]) -> bool
    requires { operands r.now ≤ 5 }
    ensures { result ≡ slots_ok r.now }
{
    let end = end_of(r[OPERAND_COUNT_PLACE]);
    if wrong_run(r, 0, end) != 0 {
        return false;
    }
    all_zero(r, REST_PLACE, REST_SIZE)
}

// More operands: the first run is used to its end, which is known beforehand.
pub fn many_ok(r: &[u8; RECORD_SIZE]) -> bool
    requires { (5 < operands r.now) × (operands r.now ≤ operand_count) }
    ensures { result ≡ slots_ok r.now }
{
    let end = end_of(r[OPERAND_COUNT_PLACE]);
    let first = wrong_run(r, 0, RUN_STEP + 1);
    first | wrong_rest(r, end) == 0
}
