// What a Run tests of the lent events: their length, their rules, and the room for their answers.
#![tactic(auto)]

pub mod event;
pub mod faults;
