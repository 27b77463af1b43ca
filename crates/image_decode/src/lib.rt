// The statement in a record, and its operands.
#![tactic(auto)]

ghost use Rattle.std.specs.Prelude.{◌≡◌, ◌<◌, ◌≤◌, length};
ghost use Rattle.rules.specs.Sizes.{record_size, operand_count};
ghost use Rattle.rules.specs.Image.{kind, value};
ghost use Rattle.rules.specs.Statements.{operand_at, operation_at, shape, optional};
ghost use Rattle.rules.specs.Statements.{assignment_of, condition_of, other_of, statement_of};
ghost use Rattle.image_decode.specs.Operations.{option_of};

use bytes_fields::read::get16;
use rules::codes::{
    ADD, ASSIGN, CALL, COPY, DECIMAL_ADD, DIVIDE, EQUAL, GOTO, IF, MULTIPLY, NUMBER_OPERAND, PACK,
    REGISTER_OPERAND, RETURN, SEND_BUFFERED, SEND_DIRECT, SEND_TREE, SKIP, SUBTRACT, TRANSFER,
    UNPACK,
};
use rules::layout::{OPCODE_PLACE, OPERAND_SIZE, OPERANDS_PLACE, OPERATOR_PLACE};
use rules::statement::{Assignment, Condition, Operand, Operation, Relation, Shape, Statement};

// The value of an operand stands after its kind.
const OPERAND_VALUES_PLACE: usize = OPERANDS_PLACE + 1;

// The operator of an opcode that has none.
const NO_OPERATOR: u8 = 0;

// The kind and the value of the operand at a place of a record.
pub fn kind_at(r: &[u8], k: usize) -> u8
    requires { (length r.now ≡ record_size) × (k < operand_count) }
    ensures { result ≡ kind r.now k }
{
    r[OPERANDS_PLACE + OPERAND_SIZE * k]
}

pub fn value_at(r: &[u8], k: usize) -> u16
    requires { (length r.now ≡ record_size) × (k < operand_count) }
    ensures { result ≡ value r.now k }
{
    get16(r, OPERAND_VALUES_PLACE + OPERAND_SIZE * k)
}

// The operand at a place of a record.
#[tactic(auto, unfolding(rules::specs::Statements::operand_at, rules::specs::Statements::operand_of))]
pub fn operand_at(r: &[u8], k: usize) -> Operand
    requires { (length r.now ≡ record_size) × (k < operand_count) }
    ensures { result ≡ operand_at r.now k }
{
    let value = value_at(r, k);
    match kind_at(r, k) {
        NUMBER_OPERAND => Operand::Number(value),
        REGISTER_OPERAND => Operand::Register(value),
        _ => Operand::Word(value),
    }
}

// What an opcode of ASSIGN's kind works out; any other opcode has no operation.
#[tactic(auto, unfolding(rules::specs::Statements::operation_at))]
pub fn operation_at(opcode: u8, operator: u8) -> Option<Operation>
    ensures { result ≡ option_of (operation_at opcode operator) }
{
    match (opcode, operator) {
        (ASSIGN, COPY) => Some(Operation::Copy),
        (ASSIGN, ADD) => Some(Operation::Add),
        (ASSIGN, SUBTRACT) => Some(Operation::Subtract),
        (ASSIGN, MULTIPLY) => Some(Operation::Multiply),
        (DIVIDE, NO_OPERATOR) => Some(Operation::Divide),
        (PACK, NO_OPERATOR) => Some(Operation::Pack),
        (UNPACK, NO_OPERATOR) => Some(Operation::Unpack),
        (DECIMAL_ADD, NO_OPERATOR) => Some(Operation::DecimalAdd),
        _ => None,
    }
}

// The operands that an operation has besides a destination and a left source.
// Kept: a `From` has to stand in the crate of its types, rules, where the law is; there it would be the same table.
pub fn shape_of(o: Operation) -> Shape
    ensures { result ≡ shape o }
{
    match o {
        Operation::Copy | Operation::Pack | Operation::Unpack => Shape {
            second: false,
            right: false,
        },
        Operation::Divide => Shape {
            second: true,
            right: true,
        },
        Operation::Add | Operation::Subtract | Operation::Multiply | Operation::DecimalAdd =>
            Shape {
                second: false,
                right: true,
            },
    }
}

#[tactic(auto, unfolding(rules::specs::Statements::optional))]
pub fn optional_at(r: &[u8], has: bool, k: usize) -> Operand
    requires { (length r.now ≡ record_size) × (k < operand_count) }
    ensures { result ≡ optional has r.now k }
{
    if has {
        operand_at(r, k)
    } else {
        Operand::Number(0)
    }
}

// The sources stand behind the destinations. With the number of destinations known, the places of the operands are constants.
#[tactic(auto, unfolding(rules::specs::Statements::assignment_by, rules::specs::Statements::optional))]
pub fn assignment_of(r: &[u8], o: Operation) -> Assignment
    requires { length r.now ≡ record_size }
    ensures { result ≡ assignment_of o r.now }
{
    let s = shape_of(o);
    let first = operand_at(r, 0);
    let (second, left, right) = if s.second {
        (
            operand_at(r, 1),
            operand_at(r, 2),
            optional_at(r, s.right, 3),
        )
    } else {
        (
            Operand::Number(0),
            operand_at(r, 1),
            optional_at(r, s.right, 2),
        )
    };
    Assignment {
        operation: o,
        first,
        second,
        left,
        right,
    }
}

#[tactic(auto, unfolding(rules::specs::Statements::condition_of, rules::specs::Statements::relation_of))]
pub fn condition_of(r: &[u8]) -> Condition
    requires { length r.now ≡ record_size }
    ensures { result ≡ condition_of r.now }
{
    let relation = if r[OPERATOR_PLACE] == EQUAL {
        Relation::Equal
    } else {
        Relation::Less
    };
    let left = operand_at(r, 0);
    let right = operand_at(r, 1);
    Condition {
        relation,
        left,
        right,
    }
}

// The statement in a record of an opcode that is not of ASSIGN's kind.
#[tactic(auto, unfolding(rules::specs::Statements::other_at))]
pub fn other_of(r: &[u8]) -> Statement
    requires { length r.now ≡ record_size }
    ensures { result ≡ other_of r.now }
{
    match r[OPCODE_PLACE] {
        SKIP | GOTO => Statement::Skip,
        IF => Statement::If(condition_of(r)),
        SEND_DIRECT => Statement::SendDirect,
        SEND_BUFFERED => Statement::SendBuffered,
        CALL => Statement::Call,
        RETURN => Statement::Return,
        TRANSFER => Statement::Transfer,
        SEND_TREE => Statement::SendTree,
        _ => Statement::Exit,
    }
}

// The statement in a record.
#[tactic(auto, unfolding(rules::specs::Statements::statement_of))]
pub fn statement_of(r: &[u8]) -> Statement
    requires { length r.now ≡ record_size }
    ensures { result ≡ statement_of r.now }
{
    match operation_at(r[OPCODE_PLACE], r[OPERATOR_PLACE]) {
        Some(o) => Statement::Assign(assignment_of(r, o)),
        None => other_of(r),
    }
}
