// What a line says of a call: the return value, and the lent bytes after it. A refused call leaves every byte as handed.
use crate::buffers::{Buffers, Part};
use crate::cases::case_agrees;
use crate::lines::{Call, Line};
use crate::marks::shows;
use crate::words::{behind, named, number};

impl Line<'_> {
    // What follows `name`, which ends in `=`, in the first word that begins with it.
    fn value(&self, name: &[u8]) -> &[u8] {
        behind(named(self.text, name), b'=')
    }

    // Whether the line says `returned` after its `=>`.
    fn says(&self, returned: u32) -> bool {
        number(behind(named(self.text, b"=>"), b' ')) == returned as usize
    }

    // Whether the line says the hash of `part` behind `name`.
    fn hashes(&self, name: &[u8], part: &Part) -> bool {
        shows(self.value(name), &part.hash().to_be_bytes())
    }

    // Whether `left` is what a buffer has to be after the call: as handed if it was refused, otherwise with the hash that the line says.
    fn leaves(&self, name: &[u8], refused: bool, handed: &Part, left: &Part) -> bool {
        if refused {
            left.bytes() == handed.bytes()
        } else {
            self.hashes(name, left)
        }
    }

    fn fresh_agrees(&self, buffers: &Buffers) -> bool {
        let mut state = buffers.state.copy();
        let returned = buffers.fresh(&mut state);
        self.says(returned) && self.leaves(b"state=", returned != 0, &buffers.state, &state)
    }

    fn run_agrees(&self, buffers: &Buffers) -> bool {
        let mut state = buffers.state.copy();
        let mut answers = buffers.answers.copy();
        let returned = buffers.run(&mut state, &mut answers);
        let refused = returned != 0;
        self.says(returned)
            && self.leaves(b"state=", refused, &buffers.state, &state)
            && self.leaves(b"answers=", refused, &buffers.answers, &answers)
    }

    // A line that names no thread is of thread 0.
    fn walk_agrees(&self, buffers: &Buffers) -> bool {
        let mut met = buffers.met.copy();
        let thread = (number(self.value(b"thread=")) % 4294967296) as u32;
        let returned = buffers.walk(thread, &mut met);
        let leaves = if 65535 < returned {
            met.bytes() == buffers.met.bytes()
        } else {
            met.is_eight(self.value(b"met="))
        };
        self.says(returned) && leaves
    }

    // The output is handed over filled with bytes of 7; its hash is said of a refused call too.
    fn link_agrees(&self, buffers: &Buffers) -> bool {
        let mut out = Part::filled(7, number(self.value(b"out=")));
        let returned = buffers.link(&mut out);
        self.says(returned) && self.hashes(b"linked=", &out)
    }

    // Whether the call that the line names does what the line says.
    pub fn agrees(&self, buffers: &Buffers) -> bool {
        match self.call {
            Call::Check => self.says(buffers.check()),
            Call::Fresh => self.fresh_agrees(buffers),
            Call::Case => case_agrees(self.text, buffers),
            Call::Run => self.run_agrees(buffers),
            Call::Walk => self.walk_agrees(buffers),
            Call::Link => self.link_agrees(buffers),
        }
    }
}
