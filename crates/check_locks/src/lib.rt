// What a call tests of the lock sets of the lent state.
#![tactic(auto)]

pub mod locks;
