// Statements as they are decoded from a record of the image. The labels A and B, and the data operands of the signals and RETURN, stay in
// the record: a statement says what is done, not where it leads.

// A number, a register of the thread or a shared word of the record's own block.
#[derive(Clone, Copy)]
pub enum Operand {
    Number(u16),
    Register(u16),
    Word(u16),
}

// What an opcode of ASSIGN's kind works out from its sources.
#[derive(Clone, Copy)]
pub enum Operation {
    Copy,
    Add,
    Subtract,
    Multiply,
    Divide,
    Pack,
    Unpack,
    DecimalAdd,
}

// The operands of such an opcode besides a destination and a left source: a second destination, and a right source.
#[derive(Clone, Copy)]
pub struct Shape {
    pub second: bool,
    pub right: bool,
}

// An operand that the operation does not have is the number 0: it reads as 0, and nothing is stored to it.
#[derive(Clone, Copy)]
pub struct Assignment {
    pub operation: Operation,
    pub first: Operand,
    pub second: Operand,
    pub left: Operand,
    pub right: Operand,
}

#[derive(Clone, Copy)]
pub enum Relation {
    Equal,
    Less,
}

#[derive(Clone, Copy)]
pub struct Condition {
    pub relation: Relation,
    pub left: Operand,
    pub right: Operand,
}

#[derive(Clone, Copy)]
pub enum Statement {
    // SKIP and GOTO.
    Skip,
    Assign(Assignment),
    If(Condition),
    SendDirect,
    SendBuffered,
    Call,
    Return,
    Transfer,
    Exit,
    // SEND JOBTREE: the signal founds a new tree.
    SendTree,
}

// What a statement uses a label for: to go on to, or to return to (Inner); as the signal of a direct SEND or a CALL, of a TRANSFER, or
// of a SEND that is buffered or founds a tree; or not at all.
#[derive(Clone, Copy)]
pub enum Role {
    Unused,
    Inner,
    Direct,
    Local,
    Buffered,
}
