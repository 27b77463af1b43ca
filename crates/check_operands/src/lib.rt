// The check of the places for operands of a record.
#![tactic(auto)]

pub mod runs;
