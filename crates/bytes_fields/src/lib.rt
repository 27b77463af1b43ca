// Little-endian numbers, and runs of them, in lent bytes.
#![tactic(auto)]

pub mod read;
pub mod write;
