// What the image check tests of a record.
#![tactic(auto)]

pub mod outline;
pub mod rows;
pub mod rule;
