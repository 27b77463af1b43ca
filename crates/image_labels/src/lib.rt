// Which labels the statement of a record uses, by its opcode.
#![tactic(auto)]

ghost use Rattle.std.specs.Prelude.{◌≡◌, true, length};
ghost use Rattle.rules.specs.Sizes.{record_size};
ghost use Rattle.rules.specs.Statements.{statement_of};
ghost use Rattle.rules.specs.Check.{head_ok};
ghost use Rattle.image_labels.specs.Labels.{uses_of};

use bytes_lock_set::sets::BitSet;
use rules::codes::{
    ASSIGN, CALL, DECIMAL_ADD, DIVIDE, GOTO, IF, PACK, SEND_BUFFERED, SEND_DIRECT, SEND_TREE, SKIP,
    TRANSFER, UNPACK,
};
use rules::layout::OPCODE_PLACE;

// The opcodes that use label A, and those that use label B, as sets: bit i for opcode i.
const USING_A: u16 = (1 << SKIP)
    | (1 << ASSIGN)
    | (1 << GOTO)
    | (1 << IF)
    | (1 << SEND_DIRECT)
    | (1 << SEND_BUFFERED)
    | (1 << CALL)
    | (1 << TRANSFER)
    | (1 << SEND_TREE)
    | (1 << DIVIDE)
    | (1 << PACK)
    | (1 << UNPACK)
    | (1 << DECIMAL_ADD);

const USING_B: u16 = (1 << IF) | (1 << SEND_BUFFERED) | (1 << CALL) | (1 << SEND_TREE);

// Which of its labels a statement uses.
#[derive(Clone, Copy)]
pub struct LabelUse {
    pub a: bool,
    pub b: bool,
}

// Which labels the statement of a record uses.
pub fn uses_of(r: &[u8]) -> LabelUse
    requires { (length r.now ≡ record_size) × (head_ok r.now ≡ true) }
    ensures { result ≡ uses_of (statement_of r.now) }
{
    let opcode = usize::from(r[OPCODE_PLACE]);
    let a = USING_A.has(opcode);
    let b = USING_B.has(opcode);
    LabelUse { a, b }
}
