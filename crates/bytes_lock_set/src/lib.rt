// Sets of small numbers as bits, and the locks in a set: whether one is in it, how many there are, and the lowest.
#![tactic(auto)]

pub mod held;
pub mod sets;
