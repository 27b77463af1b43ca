// Trials that are the lines of a file: CASE CALL EDIT.. => RETURN. A call is handed the files of its case, CASE.image and the others or
// CASE.first and the others, with the edits carried out in order. The vectors are what independent implementations of the rules agree on.
use crate::buffers::Buffers;
use crate::files::read_text;
use crate::tally::Tally;
use crate::words::{behind, first_word};
use std::fmt;
use std::io::Result;
use std::rt::{Files, Runtime};

// The bytes that are read of a file. The lines behind them would be missing from the counts.
const TEXT: usize = 163840;

// The call that a line names: a case is a run from the fresh machine.
#[derive(Clone, Copy, Debug, PartialEq, Eq)]
pub enum Call {
    Check,
    Fresh,
    Case,
    Run,
    Walk,
    Link,
}

impl fmt::Display for Call {
    fn fmt<W: fmt::Write>(&self, f: &mut fmt::Formatter<W>) -> fmt::Result {
        f.write_str(match self {
            Call::Check => "check",
            Call::Fresh => "fresh",
            Call::Case | Call::Run => "run",
            Call::Walk => "walk",
            Call::Link => "link",
        })
    }
}

impl Call {
    const ALL: [Call; 6] = [
        Call::Check,
        Call::Fresh,
        Call::Case,
        Call::Run,
        Call::Walk,
        Call::Link,
    ];

    // What its word in a line begins with.
    fn name(self) -> &'static [u8] {
        match self {
            Call::Check => b"check",
            Call::Fresh => b"fresh",
            Call::Case => b"run=",
            Call::Run => b"run",
            Call::Walk => b"walk",
            Call::Link => b"link",
        }
    }

    // The call whose name the text begins with.
    fn named(text: &[u8]) -> Option<Self> {
        Call::ALL
            .into_iter()
            .find(|call| text.starts_with(call.name()))
    }
}

// A line that is a trial.
#[derive(Clone, Copy)]
pub struct Line<'a> {
    pub text: &'a [u8],
    pub call: Call,
}

impl<'a> Line<'a> {
    // A comment, and a line that does not name `call`, is no trial. A case is a run too.
    fn of(text: &'a [u8], call: Call) -> Option<Self> {
        let words = behind(text, b' ');
        if text.starts_with(b"#") || !words.starts_with(call.name()) {
            return None;
        }
        Some(Line {
            text,
            call: Call::named(words)?,
        })
    }

    // Tries the line, on the buffers of its case in `folder` with its edits.
    fn passes(&self, rt: &(impl Files + Eprint), folder: &[u8], buffers: &mut Buffers) -> bool {
        buffers.load(rt, folder, first_word(self.text), self.call);
        buffers.edit(self.text);
        self.agrees(buffers)
    }
}

// Tries each line of the file in `folder` that names `call`, on the cases in that folder.
pub fn try_file(
    rt: &impl Runtime,
    folder: &[u8],
    file: &[u8],
    call: Call,
    buffers: &mut Buffers,
) -> Result<Tally> {
    let mut text = [0; TEXT];
    let lines = read_text(rt, folder, file, &mut text).split_inclusive(|byte| *byte == b'\n');
    let mut tally = Tally::new();
    for (number, text) in (1..).zip(lines) {
        if let Some(line) = Line::of(text, call) {
            tally.count(rt, number, line.passes(rt, folder, buffers))?;
        }
    }
    Ok(tally)
}
