// Tries the exported calls: the trials that are not proved, and the vectors. Prints a line for each group of trials.
#![tactic(auto)]

mod buffers;
mod calls;
mod cases;
mod claims;
mod edits;
mod files;
mod limits;
mod lines;
mod marks;
mod sets;
mod tally;
mod words;

use buffers::Buffers;
use limits::{image_lengths, link_counts};
use lines::{Call, try_file};
use sets::try_sets;
use std::io::Result;
use std::rt::Runtime;

// The lines of the limits that name `call`.
fn try_limits(rt: &impl Runtime, call: Call, buffers: &mut Buffers) -> Result<()> {
    let tally = try_file(rt, b".", b"limits.txt", call, buffers)?;
    println!(rt; "{call}: {tally} lines of the limits agree")
}

fn main(rt: HostRuntime) -> Result<()> {
    let mut buffers = Buffers::new();
    let images = image_lengths(&rt, &mut buffers)?;
    println!(rt; "check: {images} image lengths agree")?;
    let records = link_counts(&rt, &mut buffers)?;
    println!(rt; "link: {records} record counts agree")?;
    for call in [Call::Check, Call::Fresh, Call::Run, Call::Walk, Call::Link] {
        try_limits(&rt, call, &mut buffers)?;
    }
    try_sets(&rt, &mut buffers)?;
    let links = try_file(&rt, b"101", b"links.txt", Call::Link, &mut buffers)?;
    println!(rt; "link: {links} lines of the vectors agree")
}
