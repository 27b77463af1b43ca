// What a call tests of the job trees of the lent state, and of the queues that they make.
#![tactic(auto)]

pub mod queues;
