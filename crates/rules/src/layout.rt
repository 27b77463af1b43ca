// Where the fields of the machine's bytes stand (places), and how long they are (sizes), worked out from the limits. specs/Sizes.antt
// has the same names.
use crate::limits::{Image, Tree};
use crate::sorts::{Block, Thread};

// A record of the image: opcode, block, entry, operator, label A, label B, operand count, operands of kind and value.
pub const OPCODE_PLACE: usize = 0;

pub const BLOCK_PLACE: usize = 1;

pub const ENTRY_PLACE: usize = 2;

pub const OPERATOR_PLACE: usize = 3;

pub const LABEL_A_PLACE: usize = 4;

pub const LABEL_B_PLACE: usize = 6;

pub const OPERAND_COUNT_PLACE: usize = 8;

pub const OPERANDS_PLACE: usize = 9;

pub const OPERAND_SIZE: usize = 3;

pub const RECORD_SIZE: usize = OPERANDS_PLACE + OPERAND_SIZE * Image::OPERANDS;

// A row of the block table: thread, kind, lock.
pub const ROW_THREAD_PLACE: usize = 0;

pub const ROW_KIND_PLACE: usize = 1;

pub const ROW_LOCK_PLACE: usize = 2;

pub const ROW_SIZE: usize = 3;

pub const TABLE_SIZE: usize = ROW_SIZE * Block::COUNT;

// A signal: label, value count, values.
pub const VALUE_COUNT_PLACE: usize = 2;

pub const VALUES_PLACE: usize = 3;

pub const SIGNAL_SIZE: usize = VALUES_PLACE + 2 * Thread::REGISTERS;

// A thread record: label, lock set, return count, return labels, presence set, register values, held count, held signals.
pub const LOCKS_PLACE: usize = 2;

pub const RETURN_COUNT_PLACE: usize = 4;

pub const RETURNS_PLACE: usize = 5;

pub const PRESENCE_PLACE: usize = RETURNS_PLACE + 2 * Thread::RETURNS;

pub const REGISTERS_PLACE: usize = PRESENCE_PLACE + 4;

pub const HELD_COUNT_PLACE: usize = REGISTERS_PLACE + 2 * Thread::REGISTERS;

pub const HELD_PLACE: usize = HELD_COUNT_PLACE + 1;

pub const HELD_SIZE: usize = SIGNAL_SIZE * Thread::HELD;

pub const THREAD_SIZE: usize = HELD_PLACE + HELD_SIZE;

// A tree record: thread, pending count, signals, the oldest first.
pub const PENDING_COUNT_PLACE: usize = 1;

pub const SIGNALS_PLACE: usize = 2;

pub const TREE_SIZE: usize = SIGNALS_PLACE + SIGNAL_SIZE * Tree::PENDING;

// The state: the shared words, the thread records, the tree count, the tree records.
pub const WORDS_SIZE: usize = 2 * Block::COUNT * Block::WORDS;

pub const THREADS_PLACE: usize = WORDS_SIZE;

pub const TREE_COUNT_PLACE: usize = THREADS_PLACE + THREAD_SIZE * Thread::COUNT;

pub const TREES_PLACE: usize = TREE_COUNT_PLACE + 1;

pub const STATE_SIZE: usize = TREES_PLACE + TREE_SIZE * Tree::COUNT;

// An event: kind, thread, signal. An answer: code, detail.
pub const EVENT_KIND_PLACE: usize = 0;

pub const EVENT_THREAD_PLACE: usize = 1;

pub const EVENT_SIGNAL_PLACE: usize = 2;

pub const EVENT_SIZE: usize = EVENT_SIGNAL_PLACE + SIGNAL_SIZE;

pub const ANSWER_SIZE: usize = 2;
