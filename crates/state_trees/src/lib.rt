// The job trees in the lent bytes of a state, read and changed in place.
#![tactic(auto)]

pub mod list;
