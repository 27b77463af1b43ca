// The numbers that stand in the machine's bytes for a kind, an operator, an entry, an answer or a trap, under the header's words.
// specs/Codes.antt has the same names.
// Kept: these are the C header's numbers. Code compares bytes with them; what they stand for is an enum wherever it is handed on.

// Opcodes.
pub const SKIP: u8 = 1;

pub const ASSIGN: u8 = 2;

pub const GOTO: u8 = 3;

pub const IF: u8 = 4;

pub const SEND_DIRECT: u8 = 5;

pub const SEND_BUFFERED: u8 = 6;

pub const CALL: u8 = 7;

pub const RETURN: u8 = 8;

pub const TRANSFER: u8 = 9;

pub const EXIT: u8 = 10;

pub const SEND_TREE: u8 = 11;

pub const DIVIDE: u8 = 12;

pub const PACK: u8 = 13;

pub const UNPACK: u8 = 14;

pub const DECIMAL_ADD: u8 = 15;

// Operators of ASSIGN, and of IF.
pub const COPY: u8 = 1;

pub const ADD: u8 = 2;

pub const SUBTRACT: u8 = 3;

pub const MULTIPLY: u8 = 4;

pub const EQUAL: u8 = 1;

pub const LESS: u8 = 2;

// Entries of a record.
pub const DIRECT: u8 = 1;

pub const BUFFERED: u8 = 2;

pub const EXTERNAL: u8 = 3;

// Kinds of an operand, of a block, of an event.
pub const NUMBER_OPERAND: u8 = 1;

pub const REGISTER_OPERAND: u8 = 2;

pub const WORD_OPERAND: u8 = 3;

pub const FD: u8 = 0;

pub const CMX: u8 = 1;

pub const ARRIVAL: u8 = 1;

pub const STEP: u8 = 2;

pub const CUT: u8 = 3;

// Codes of an answer.
pub const ARRIVED: u8 = 1;

pub const LIST_FULL: u8 = 2;

pub const NO_WORK: u8 = 3;

pub const WAITING: u8 = 4;

pub const STARTED: u8 = 5;

pub const MOVED_ON: u8 = 6;

pub const EXITED: u8 = 7;

pub const TRAPPED: u8 = 8;

pub const WAS_CUT: u8 = 9;

pub const NOTHING_TO_CUT: u8 = 10;

// Reasons of a trap.
pub const ABSENT_REGISTER: u8 = 1;

pub const NO_RETURN_LABEL: u8 = 2;

pub const RETURNS_FULL: u8 = 3;

pub const PENDING_FULL: u8 = 4;

pub const FOREIGN_FD_BLOCK: u8 = 5;

pub const HELD_FULL: u8 = 6;

pub const BELOW_ZERO: u8 = 7;

pub const ZERO_DIVISOR: u8 = 8;

pub const NOT_DECIMAL: u8 = 9;

// Numbers of a refusal.
pub const BAD_IMAGE_LENGTH: u32 = 1;

pub const BAD_TABLE_LENGTH: u32 = 2;

pub const BAD_TABLE_FIELD: u32 = 3;

pub const BAD_RECORD: u32 = 4;

pub const BAD_STATE_LENGTH: u32 = 5;

pub const BAD_STATE: u32 = 6;

pub const BAD_EVENTS_LENGTH: u32 = 7;

pub const BAD_EVENT: u32 = 8;

pub const BAD_ANSWERS_LENGTH: u32 = 9;

pub const BAD_WORDS_LENGTH: u32 = 10;

pub const BAD_WALK_THREAD: u32 = 11;

pub const BAD_MET_LENGTH: u32 = 12;

pub const SHARED_BLOCK: u32 = 13;

pub const TOO_MANY_RECORDS: u32 = 14;

pub const BAD_OUTPUT_LENGTH: u32 = 15;
