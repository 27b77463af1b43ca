// The sets of vectors: a line of sets.txt for each, FOLDER NAME. A set has damaged.txt, of calls on damaged buffers, and index.txt, of its
// cases; most have near.txt too, of walks from states near those of the cases.
use crate::buffers::Buffers;
use crate::files::{is_there, read_text};
use crate::lines::{Call, try_file};
use crate::words::{behind, first_word};
use std::io::Result;
use std::rt::Runtime;

// The bytes that are read of sets.txt. The sets behind them would be missing from the output.
const LIST: usize = 4096;

// The name is printed as it stands, also where it is no text.
#[derive(Clone, Copy)]
struct Set<'a> {
    folder: &'a [u8],
    name: &'a [u8],
}

impl<'a> Set<'a> {
    fn of(line: &'a [u8]) -> Self {
        Set {
            folder: first_word(line),
            name: behind(line, b' '),
        }
    }

    // The damaged calls of one name.
    fn try_damaged(self, rt: &impl Runtime, call: Call, buffers: &mut Buffers) -> Result<()> {
        let tally = try_file(rt, self.folder, b"damaged.txt", call, buffers)?;
        print!(rt; "{call}: {tally} lines of the vectors of ")?;
        rt.write_all(self.name)?;
        println!(rt; " agree")
    }

    // The walks from states near those of the cases, if the set has any.
    fn try_near(self, rt: &impl Runtime, buffers: &mut Buffers) -> Result<()> {
        if !is_there(rt, self.folder, b"near.txt") {
            return Ok(());
        }
        let tally = try_file(rt, self.folder, b"near.txt", Call::Walk, buffers)?;
        print!(rt; "walk: {tally} lines near states of ")?;
        rt.write_all(self.name)?;
        println!(rt; " agree")
    }

    // The cases, each with its walks.
    fn try_cases(self, rt: &impl Runtime, buffers: &mut Buffers) -> Result<()> {
        let tally = try_file(rt, self.folder, b"index.txt", Call::Case, buffers)?;
        print!(rt; "run: {tally} cases of ")?;
        rt.write_all(self.name)?;
        println!(rt; " agree, with the walks of eight threads")
    }

    fn try_all(self, rt: &impl Runtime, buffers: &mut Buffers) -> Result<()> {
        for call in [Call::Check, Call::Fresh, Call::Run, Call::Walk] {
            self.try_damaged(rt, call, buffers)?;
        }
        self.try_near(rt, buffers)?;
        self.try_cases(rt, buffers)
    }
}

// Each set of sets.txt: a line without its last byte, the newline.
pub fn try_sets(rt: &impl Runtime, buffers: &mut Buffers) -> Result<()> {
    let mut list = [0; LIST];
    let lines = read_text(rt, b".", b"sets.txt", &mut list).split_inclusive(|byte| *byte == b'\n');
    for line in lines {
        if let Some((_, set)) = line.split_last() {
            Set::of(set).try_all(rt, buffers)?;
        }
    }
    Ok(())
}
