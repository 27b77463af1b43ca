// What each opcode allows, as bits: no test of a record branches by its opcode.
ghost use Rattle.std.specs.Prelude.{◌≡◌};
ghost use Rattle.check_record.specs.Rows.{row_of};

use rules::codes::{
    ASSIGN, CALL, DECIMAL_ADD, DIVIDE, EXIT, GOTO, IF, PACK, REGISTER_OPERAND, RETURN,
    SEND_BUFFERED, SEND_DIRECT, SEND_TREE, SKIP, TRANSFER, UNPACK,
};
use rules::kinds::Entry;

// The bits that are zero in bytes 1 to 8, byte 1 lowest; the sums of an operand count and four times an operator that are allowed, a bit
// for each; of the records at the labels A and B the bits that are given, the block in the low byte and the entry in the high one; the
// entry of the record at A; and the least kind of the first operand.
#[derive(Clone, Copy)]
pub struct Row {
    pub zeros: u64,
    pub sums: u32,
    pub given: u16,
    pub entry: u8,
    pub inner: u16,
    pub least: u8,
}

// A block is below 16 and an entry below 4. Without operators the operator is 0 and a count below 32; else an operator is below 8 and a
// count below 4. So a sum has one operator and one count. A label that is not used is 0.
const PLAIN: u64 = 0xe000000000fffcf0;

const CHOICE: u64 = 0xfc00000000f8fcf0;

const NO_A: u64 = 0x000000ffff000000;

const NO_B: u64 = 0x00ffff0000000000;

// Counts and sums: no operand, any number of them up to 25, two, three or four; copy with two operands or another operator of ASSIGN with
// three; an operator of IF with two.
const NONE: u32 = 0x1;

const ANY: u32 = 0x3ffffff;

const TWO: u32 = 0x4;

const THREE: u32 = 0x8;

const FOUR: u32 = 0x10;

const ASSIGNED: u32 = 0x88840;

const COMPARED: u32 = 0x440;

const BLOCK: u16 = 0x00ff;

const ENTRY: u16 = 0xff00;

// No opcode: no count is allowed.
const UNKNOWN: Row = Row {
    zeros: PLAIN + NO_A + NO_B,
    sums: 0,
    given: 0,
    entry: 0,
    inner: 0,
    least: 0,
};

// EXIT has no operand and no label, and SKIP and GOTO have label A.
const EXITS: Row = Row {
    sums: NONE,
    ..UNKNOWN
};

const GOES: Row = Row {
    zeros: PLAIN + NO_B,
    given: BLOCK,
    ..EXITS
};

// Signals, with any number of operands. A direct SEND has one at label A; CALL has a label B too.
const RETURNS: Row = Row {
    sums: ANY,
    ..UNKNOWN
};

const SENDS_DIRECT: Row = Row {
    zeros: PLAIN + NO_B,
    given: ENTRY,
    entry: Entry::Direct as u8,
    ..RETURNS
};

const TRANSFERS: Row = Row {
    given: BLOCK + ENTRY,
    ..SENDS_DIRECT
};

const CALLS: Row = Row {
    zeros: PLAIN,
    inner: BLOCK,
    ..SENDS_DIRECT
};

const SENDS_BUFFERED: Row = Row {
    entry: Entry::Buffered as u8,
    ..CALLS
};

// What stores, by operand count or operator, and IF, which only reads and has a label B.
const PACKS: Row = Row {
    sums: TWO,
    least: REGISTER_OPERAND,
    ..GOES
};

const ADDS: Row = Row {
    sums: THREE,
    ..PACKS
};

const DIVIDES: Row = Row {
    sums: FOUR,
    ..PACKS
};

const ASSIGNS: Row = Row {
    zeros: CHOICE + NO_B,
    sums: ASSIGNED,
    ..PACKS
};

const BRANCHES: Row = Row {
    zeros: CHOICE,
    sums: COMPARED,
    inner: BLOCK,
    ..GOES
};

pub fn row_of(opcode: u8) -> Row
    ensures { result ≡ row_of opcode }
{
    match opcode {
        SKIP | GOTO => GOES,
        ASSIGN => ASSIGNS,
        IF => BRANCHES,
        SEND_DIRECT => SENDS_DIRECT,
        SEND_BUFFERED | SEND_TREE => SENDS_BUFFERED,
        CALL => CALLS,
        RETURN => RETURNS,
        TRANSFER => TRANSFERS,
        EXIT => EXITS,
        DIVIDE => DIVIDES,
        PACK => PACKS,
        UNPACK => PACKS,
        DECIMAL_ADD => ADDS,
        _ => UNKNOWN,
    }
}
