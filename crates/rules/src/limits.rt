// The limits of docs/MACHINE.md, each at the thing that it limits.
use crate::sorts::{Block, Label, Lock, Thread};

#[derive(Clone, Copy)]
pub struct Image {}

impl Image {
    pub const RECORDS: usize = 512;

    pub const OPERANDS: usize = 25;
}

// The label of an idle thread.
impl Label {
    pub const IDLE: u16 = 65535;
}

impl Thread {
    pub const COUNT: usize = 8;

    pub const REGISTERS: usize = 25;

    pub const RETURNS: usize = 8;

    // Signals that a job holds for new trees.
    pub const HELD: usize = 4;
}

impl Block {
    pub const COUNT: usize = 16;

    pub const WORDS: usize = 16;

    // FD and CMX.
    pub const KINDS: usize = 2;
}

impl Lock {
    pub const COUNT: usize = 16;
}

#[derive(Clone, Copy)]
pub struct Tree {}

impl Tree {
    pub const COUNT: usize = 16;

    pub const PENDING: usize = 8;
}

#[derive(Clone, Copy)]
pub struct Run {}

impl Run {
    pub const EVENTS: usize = 1024;
}
