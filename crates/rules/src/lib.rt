// The vocabulary of the Core PLEX plug-in machine: what docs/MACHINE.md speaks of, as types. The law over it stands in specs/.
#![tactic(auto)]

pub mod answer;
pub mod codes;
pub mod kinds;
pub mod layout;
pub mod limits;
pub mod sorts;
pub mod statement;
pub mod trap;
