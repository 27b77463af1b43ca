// What a call tests of the lent state: its length, and whether it is well formed.
#![tactic(auto)]

pub mod faults;
pub mod form;
